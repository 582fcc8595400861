//! What holds of every run, for whoever reads or cites it. The functions do nothing.

ghost use Rattle.std.specs.Prelude.{◌≡◌, ℕ, ◌+◌, ◌<◌, ◌≤◌, List, [], ◌∷◌, ◌++◌, false, Some, None, length, slice_index};
ghost use Rattle.swap_core.specs.declared.steps.Step.{Step};
ghost use Rattle.swap_core.specs.declared.steps.Step.TheVariants.{Publish};
ghost use Rattle.swap_core.specs.Runs.{State, start, next, run, sights_of, publication, IsSound, stored, was_shown, next_publication};

/// Every state of every run is sound, and a step from a sound state leads to a sound one.
pub fn runs_are_sound()
    ensures runs { (m : ℕ) (es : List Step) → IsSound (run (start m) es) }
    ensures step { (s : State) (e : Step) → IsSound s → IsSound (next s e) }
{}

/// The next publication has at each place the word that was stored there last since the last one, so it has
/// the stored words where all its places were stored.
pub fn publications_are_stored()
    ensures word { (m : ℕ) (es : List Step) (place word : ℕ)
        → place < m
        → stored None place es ≡ Some word
        → slice_index (next_publication m es) place ≡ word }
    ensures whole { (m : ℕ) (es : List Step) (words : List ℕ)
        → length words ≡ m
        → ((place : ℕ) → place < m → stored None place es ≡ Some (slice_index words place))
        → next_publication m es ≡ words }
{}

/// A take is granted exactly where a probe since the last take saw a newer publication.
pub fn ready_is_what_a_probe_saw()
    ensures { (m : ℕ) (es : List Step)
        → (run (start m) es).slots.ready ≡ was_shown false es (sights_of (start m) es) }
{}

/// The publications made stay as they are, and the number held never falls.
pub fn runs_go_forward()
    ensures held { (m : ℕ) (es more : List Step)
        → (run (start m) es).slots.held ≤ (run (start m) (es ++ more)).slots.held }
    ensures published { (m : ℕ) (es more : List Step) (number : ℕ)
        → number ≤ (run (start m) es).slots.newest
        → publication (run (start m) (es ++ more)).published number
        ≡ publication (run (start m) es).published number }
{}
