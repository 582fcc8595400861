//! A sink in memory that never fails.

ghost use Rattle.std.specs.Prelude.{◌≡◌, ◌≢◌, ◌≤◌, ℕ, List, [], length, min, Some, IfOk, OnErr};
ghost use Rattle.irt_io.specs.Fault.{IsLater};
ghost use Rattle.irt_io.specs.Taken.{IsPut, IsPutCause};

use crate::sink::{Sink, SinkError};
use std::alloc::Global;
use std::marker::Model;

/// Bytes in memory, taken in steps of at most so many. No call answers `Failed`.
#[derive(Drop)]
pub struct SureSink {
    step: usize,
    bytes: Vec<u8>,
}

impl Model for SureSink {
    ghost use Rattle.std.specs.Prelude.{◌≤◌};
    ghost use Rattle.irt_io.specs.Fake.{StepSink};

    ghost Value = { StepSink };

    ghost view = { λ s. record { step = s.step; bytes = s.bytes.items } };

    ghost invariant = { λ s. 1 ≤ s.step };
}

impl SureSink {
    /// A sink that has taken nothing, and takes at most `step` bytes in a call.
    pub fn new(alloc: Global, step: usize) -> SureSink
        requires { 1 ≤ step }
        ensures { result ≡ record { step = step; bytes = [] } }
    {
        SureSink {
            step,
            bytes: Vec::new(alloc),
        }
    }

    /// All bytes taken.
    pub fn bytes(&self) -> &[u8]
        ensures { result.now ≡ self.now.bytes }
    {
        self.bytes.as_slice()
    }
}

impl Sink for SureSink {
    ghost taken = { λ s. Some s.bytes };

    ghost faults = { λ _. 0 };

    fn put(&mut self, piece: &[u8]) -> Result<usize, SinkError>
        ensures bound { IfOk result (λ n. n ≤ length piece.now) }
        ensures progress { IfOk result (λ n. 1 ≤ length piece.now → 1 ≤ n) }
        ensures answer { IsPut (Some self.old.bytes) (Some self.new.bytes) piece.now result }
        ensures cause { IsPutCause 0 0 result }
        ensures later { IsLater 0 0 }
        ensures steps { IfOk result (λ n. n ≡ min self.old.step (length piece.now)) }
        ensures step { self.new.step ≡ self.old.step }
        ensures sure { result ≢ Err SinkError.Failed }
    {
        let count = self.step.min(piece.len());
        match self.bytes.extend_from_slice(&piece[..count]) {
            Ok(()) => Ok(count),
            Err(_) => Err(SinkError::NoMemory),
        }
    }
}
