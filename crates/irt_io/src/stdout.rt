//! Standard output as a sink.

ghost use Rattle.std.specs.Prelude.{◌≡◌, ◌≤◌, length, None, IfOk};
ghost use Rattle.irt_io.specs.Fault.{IsLater};
ghost use Rattle.irt_io.specs.Taken.{IsPut, IsPutCause};

use crate::sink::{Sink, SinkError};
use std::io;
use std::io::Write;

/// Standard output. It tells contracts no bytes, and counts its faults. What it took stands with the
/// system: nothing waits in a buffer.
#[derive(Drop)]
pub struct StdSink<R> {
    rt: R,
    faults: u64,
}

impl<R> StdSink<R> {
    ghost use Rattle.irt_io.specs.Edge.{stdout_faults};

    /// The standard output of this runtime.
    pub fn new(rt: R) -> StdSink<R>
        ensures { stdout_faults result ≡ 0 }
    {
        StdSink { rt, faults: 0 }
    }
}

impl<R: Print> Sink for StdSink<R> {
    ghost use Rattle.irt_io.specs.Edge.{stdout_faults};

    ghost taken = { λ _. None };

    ghost faults = { λ s. stdout_faults s };

    fn put(&mut self, piece: &[u8]) -> Result<usize, SinkError> {
        if piece.is_empty() {
            return Ok(0);
        }
        match io::writer(&self.rt).write(piece) {
            Ok(count) if count > 0 => Ok(count),
            _ => {
                self.faults = self.faults.saturating_add(1);
                Err(SinkError::Failed)
            }
        }
    }
}
