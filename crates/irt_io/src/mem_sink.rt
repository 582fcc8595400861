//! A sink in memory whose calls of given numbers fail.

ghost use Rattle.std.specs.Prelude.{◌≡◌, ◌≤◌, ◌↔◌, ℕ, List, [], length, min, Some, IfOk, IsErrOf, IsTrue};
ghost use Rattle.irt_io.specs.Fake.{next_fails, after_call};
ghost use Rattle.irt_io.specs.Fault.{IsLater};
ghost use Rattle.irt_io.specs.Taken.{IsPut, IsPutCause};

use crate::script::CallScript;
use crate::sink::{Sink, SinkError};
use crate::sure_sink::SureSink;
use irt_base::memory::NoMemory;
use std::alloc::Global;
use std::marker::Model;

/// Bytes in memory, taken in steps of at most so many. The calls of `put` are counted from 0, and
/// those of given numbers fail.
#[derive(Drop)]
pub struct MemSink {
    sink: SureSink,
    script: CallScript,
}

impl Model for MemSink {
    ghost use Rattle.irt_io.specs.Fake.{FakeSink};

    ghost Value = { FakeSink };

    ghost view = { λ s. record { step = s.sink.step; bytes = s.sink.bytes; script = s.script } };
}

impl MemSink {
    /// A sink that has taken nothing, takes at most `step` bytes in a call, and whose calls of these
    /// numbers fail.
    pub fn new(alloc: Global, step: usize, fails: &[u32]) -> Result<MemSink, NoMemory>
        requires { 1 ≤ step }
        ensures step { IfOk result (λ s. s.step ≡ step) }
        ensures empty { IfOk result (λ s. s.bytes ≡ []) }
        ensures script { IfOk result (λ s. s.script ≡ record { fails = fails.now; calls = 0; faults = 0 }) }
    {
        Ok(MemSink {
            sink: SureSink::new(alloc, step),
            script: CallScript::new(alloc, fails)?,
        })
    }

    /// All bytes taken.
    pub fn bytes(&self) -> &[u8]
        ensures { result.now ≡ self.now.bytes }
    {
        self.sink.bytes()
    }
}

impl Sink for MemSink {
    ghost taken = { λ s. Some s.bytes };

    ghost faults = { λ s. s.script.faults };

    fn put(&mut self, piece: &[u8]) -> Result<usize, SinkError>
        ensures bound { IfOk result (λ n. n ≤ length piece.now) }
        ensures progress { IfOk result (λ n. 1 ≤ length piece.now → 1 ≤ n) }
        ensures answer { IsPut (Some self.old.bytes) (Some self.new.bytes) piece.now result }
        ensures cause { IsPutCause self.old.script.faults self.new.script.faults result }
        ensures later { IsLater self.old.script.faults self.new.script.faults }
        ensures steps { IfOk result (λ n. n ≡ min self.old.step (length piece.now)) }
        ensures step { self.new.step ≡ self.old.step }
        ensures script { self.new.script ≡ after_call self.old.script }
        ensures fails { IsErrOf result SinkError.Failed ↔ IsTrue (next_fails self.old.script) }
    {
        if self.script.call() {
            return Err(SinkError::Failed);
        }
        self.sink.put(piece)
    }
}
