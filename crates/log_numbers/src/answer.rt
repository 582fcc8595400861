//! What the tests of either side of an app ask.

ghost use Rattle.std.specs.Prelude.{◌≡◌};
ghost use Rattle.io_buffers.specs.declared.taken.Taken.{Taken};

use io_buffers::taken::Taken;
use iso_rules::turn::Turn;
use record_text::record::Take;

/// What has the answer of a take: a take of the output, and a turn, which takes from the input.
pub(crate) trait HasTaken {
    // The answer.
    ghost taken_of: { Self → Taken };

    /// The answer.
    fn taken(&self) -> Taken
        ensures { result ≡ taken_of self.now };
}

impl HasTaken for Take {
    ghost taken_of = { λ t. t.taken };

    fn taken(&self) -> Taken {
        self.taken()
    }
}

impl HasTaken for Turn {
    ghost taken_of = { λ t. t.taken };

    fn taken(&self) -> Taken {
        self.taken
    }
}
