//! A sink: bytes that are written one piece after the other.

ghost use Rattle.std.specs.Prelude.{◌≡◌, ◌≤◌, ℕ, List, length, Option, IfOk};
ghost use Rattle.irt_io.specs.Fault.{IsLater};
ghost use Rattle.irt_io.specs.Taken.{IsPut, IsPutCause};

use thiserror::Error;

/// Why a sink took nothing.
#[derive(Clone, Copy, Debug, PartialEq, Eq, Error)]
pub enum SinkError {
    #[error("the sink failed")]
    Failed,
    #[error("out of memory")]
    NoMemory,
}

/// Takes bytes. Where a sink tells them, contracts see all that it took.
pub trait Sink {
    ghost taken: { Self → Option (List ℕ) };

    ghost faults: { Self → ℕ };

    /// Takes the first bytes of a piece, and gives how many: at least one of a piece that has any.
    ///
    /// `Failed`: a fault, which was counted. After an error nothing of the piece was taken.
    fn put(&mut self, piece: &[u8]) -> Result<usize, SinkError>
        ensures bound { IfOk result (λ n. n ≤ length piece.now) }
        ensures progress { IfOk result (λ n. 1 ≤ length piece.now → 1 ≤ n) }
        ensures answer { IsPut (taken self.old) (taken self.new) piece.now result }
        ensures cause { IsPutCause (faults self.old) (faults self.new) result }
        ensures later { IsLater (faults self.old) (faults self.new) };
}
