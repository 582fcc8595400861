//! What holds over any calls, for whoever reads or cites it. The functions do nothing.

ghost use Rattle.std.specs.Prelude.{◌≡◌, ◌+◌, ◌*◌, ◌<◌, ℕ, true, List, [], ◌∷◌, length, replicate, slice_set};
ghost use Rattle.swap_core.specs.declared.steps.Step.TheVariants as events;
ghost use Rattle.swap_core.specs.Machine.{row_of};
ghost use Rattle.swap_core.specs.Runs.{start, next};
ghost use Rattle.io_buffers.specs.declared.views.Made.{Made};
ghost use Rattle.io_buffers.specs.declared.views.Made.TheVariants as made;
ghost use Rattle.io_buffers.specs.Steps.{middle_in, number_in, fresh_word, spent_word, draft_of, part_of, published_in, front_of, ready_in};
ghost use Rattle.io_buffers.specs.Rule.{state_of, IsExchange};
ghost use Rattle.io_buffers.specs.Plain.{Call, first_plain, plain_after, published_by, held_by, KeepsTwo};

/// Over any calls of `publish` and `take`, the exchange on one thread keeps the last one of all
/// publications, of which number 0 is zeros, and the one that was the last at the last take.
pub fn plain_keeps_two_publications()
    ensures { (m : ℕ) (calls : List Call)
        → KeepsTwo (published_by (replicate m 0 ∷ []) calls) (held_by 0 0 calls) (plain_after (first_plain m) calls) }
{}

/// Each kind of step on the words of a shared exchange changes the state of the core, which the words and
/// the steps of both sides are, as its event does.
pub fn steps_are_events()
    ensures first { (m : ℕ) → state_of m 1 (replicate (3 * m) 0) [] [] ≡ start m }
    ensures store { (m w : ℕ) (cells : List ℕ) (p c : List Made) (place word : ℕ)
        → place < m
        → next (state_of m w cells p c) (events.Store place word)
        ≡ state_of m w (slice_set cells (m * draft_of p + place) word) (made.Stored place word ∷ p) c }
    ensures publish { (m w : ℕ) (cells : List ℕ) (p c : List Made)
        → IsExchange m w cells p c
        → length (part_of p) ≡ m
        → next (state_of m w cells p c) events.Publish
        ≡ state_of m (fresh_word (draft_of p) (length (published_in p) + 1)) cells (made.Published w ∷ p) c }
    ensures probe { (m w : ℕ) (cells : List ℕ) (p c : List Made)
        → next (state_of m w cells p c) events.Probe ≡ state_of m w cells p (made.Probed w ∷ c) }
    ensures take { (m w : ℕ) (cells : List ℕ) (p c : List Made)
        → IsExchange m w cells p c
        → ready_in c ≡ true
        → next (state_of m w cells p c) events.Take
        ≡ state_of m (spent_word (front_of c)) cells p (made.Took w ∷ c) }
    ensures load { (m w : ℕ) (cells : List ℕ) (p c : List Made) (place word : ℕ)
        → next (state_of m w cells p c) (events.Load place) ≡ state_of m w cells p (made.Loaded place word ∷ c) }
    ensures end { (m w : ℕ) (cells : List ℕ) (p c : List Made)
        → next (state_of m w cells p c) events.Probe ≡ state_of m w cells p (made.Ended w ∷ c) }
{}
