//! Printing a text.

ghost use Rattle.std.specs.Prelude.{◌≡◌, ◌≤◌, length, OnOk};
ghost use Rattle.irt_io.specs.Fault.{IsLater};
ghost use Rattle.irt_io.specs.Taken.{Appends};
ghost use Rattle.irt_steps.specs.Print.{AppendsFront, HasPrintCause};

use irt_io::sink::{Sink, SinkError};

/// Hands a text to the sink, piece by piece. After an error the sink took a front of it.
pub fn print_text<K: Sink>(sink: &mut K, text: &[u8]) -> Result<(), SinkError>
    ensures all { OnOk result (Appends (K.taken sink.old) (K.taken sink.new) text.now) }
    ensures front { AppendsFront (K.taken sink.old) (K.taken sink.new) text.now }
    ensures cause { HasPrintCause (K.faults sink.old) (K.faults sink.new) result }
    ensures later { IsLater (K.faults sink.old) (K.faults sink.new) }
{
    let mut at = 0;
    while at < text.len() {
        match sink.put(&text[at..]) {
            Ok(count) => at += count,
            Err(error) => return Err(error),
        }
    }
    Ok(())
}
