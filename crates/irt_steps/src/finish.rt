//! The end of a call: printing what its command ended with.

ghost use Rattle.std.specs.Prelude.{◌≡◌, List, Option};
ghost use Rattle.irt_io.specs.Fault.{HasRisen};
ghost use Rattle.irt_steps.specs.Ended.{FinishesAs, PrintsAs};

use crate::print::print_text;
use crate::stop::Stop;
use irt_base::numbers::Status;
use irt_io::sink::{Sink, SinkError};

/// The status of a fault of the shelf, of a fault of the sink, and of want of memory.
pub const SHELF_FAULT: u8 = 2;

pub const SINK_FAULT: u8 = 12;

pub const NO_MEMORY: u8 = 13;

/// Prints what a command ended with, and gives its status.
pub fn finish<K: Sink>(sink: &mut K, ended: Result<Vec<u8>, Stop>) -> Status
    ensures { FinishesAs ended (record { before = K.faults sink.old; now = K.faults sink.new }) (K.taken sink.old) (K.taken sink.new) result.0 }
{
    match ended {
        Ok(text) => print_with(sink, text.as_slice(), 0),
        Err(Stop::Ends { cause, line }) => print_with(sink, line.as_slice(), cause.status()),
        Err(Stop::Fault { line }) => print_with(sink, line.as_slice(), SHELF_FAULT),
        Err(Stop::NoMemory) => Status(NO_MEMORY),
    }
}

/// Prints a text, and ends with its status where the sink took it whole.
fn print_with<K: Sink>(sink: &mut K, text: &[u8], status: u8) -> Status
    ensures { PrintsAs status text.now (record { before = K.faults sink.old; now = K.faults sink.new }) (K.taken sink.old) (K.taken sink.new) result.0 }
{
    match print_text(sink, text) {
        Ok(()) => Status(status),
        Err(SinkError::Failed) => Status(SINK_FAULT),
        Err(SinkError::NoMemory) => Status(NO_MEMORY),
    }
}
