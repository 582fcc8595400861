//! How near a measured delay is to the true one.

ghost use Rattle.std.specs.Prelude.{◌≡◌, ℕ, ◌*◌, ◌≤◌, List, [], ◌∷◌, ◌++◌, All, Ok, Err, length};
ghost use Rattle.irt_base.specs.Cycle.{IsNear};
ghost use Rattle.line_delay.specs.declared.line.LineFault.{LineFault};
ghost use Rattle.line_delay.specs.Line.{half_round, accepted, IsLowerMedian};
ghost use Rattle.line_delay.specs.Honest.{Stamps, IsHonest, IsMeasurable, IsKnown, after_all};

/// The law of honest stamps. Where each stamp of each response differs from its true time by at most
/// an error, each half round that is accepted differs from the link's delay by at most twice the
/// error, and so does the median after any list of such responses. Where the second device keeps each
/// exchange for at least twice the error, and the link is short enough to be measured, a response is
/// refused only over a delay of at most twice the error; so what is known of the delay after one
/// response or more, 0 where all were refused, differs from it by at most twice the error.
pub fn honest_law()
    ensures half { (error delay : ℕ) (s : Stamps) (half : ℕ) → IsHonest error delay s → half_round s.t1 s.t2 s.t3 s.t4 ≡ Ok half →
        IsNear (2 * error) half delay }
    ensures median { (error delay : ℕ) (responses : List Stamps) (median : ℕ) → All (IsHonest error delay) responses →
        IsLowerMedian (after_all [] responses) median → IsNear (2 * error) median delay }
    ensures refused { (error delay : ℕ) (s : Stamps) (fault : LineFault) → IsMeasurable error delay s → half_round s.t1 s.t2 s.t3 s.t4 ≡ Err fault →
        delay ≤ 2 * error }
    ensures known { (error delay : ℕ) (responses : List Stamps) (known : ℕ) → All (IsMeasurable error delay) responses → 1 ≤ length responses →
        IsKnown (after_all [] responses) known → IsNear (2 * error) known delay }
    ensures more { (halves : List ℕ) (responses : List Stamps) (s : Stamps) →
        after_all halves (responses ++ s ∷ []) ≡ accepted (after_all halves responses) (half_round s.t1 s.t2 s.t3 s.t4) }
    ensures only { (numbers : List ℕ) (median other : ℕ) → IsLowerMedian numbers median → IsLowerMedian numbers other → median ≡ other }
{}
