//! Laws of takes that a run records.

ghost use Rattle.std.specs.Prelude.{◌≡◌, ℕ, List, map};
ghost use Rattle.io_buffers.specs.Given.{Given};
ghost use Rattle.iso_rules.specs.declared.turn.Turn.{Turn};
ghost use Rattle.take_lists.specs.Rows.{AreCycleTakes, AreLegalTakes};
ghost use Rattle.take_lists.specs.Takes.{AreSomeOf, AreTakesOf, without_further};

/// Some of the takes of an exchange, in order, are takes of it.
pub fn some_takes_are_takes()
    ensures { (publications : List (List ℕ)) (some all : List Given) → AreSomeOf some all →
        AreTakesOf publications all → AreTakesOf publications some }
{}

/// What the cycles of a run take from an app's output is legal, since the further word of a publication is the number of
/// the input that its turn took.
pub fn cycle_takes_are_legal()
    ensures { (words : ℕ) (turns : List Turn) (takes : List Given) → AreCycleTakes words turns takes →
        AreLegalTakes words turns (map without_further takes) }
{}
