//! The lines of what any command may end with.

ghost use Rattle.std.specs.Prelude.{◌≡◌, IfOk};
ghost use Rattle.irt_steps.specs.Lines.{named_line};
ghost use Rattle.irt_steps.specs.Follow.{IsEnding, IsFault, IsStopOf, line_stop, status_of};

use crate::stop::{Cause, Stop};
use irt_base::memory::NoMemory;
use irt_io::shelf::ShelfError;
use std::alloc::Global;

/// A word and a name.
pub fn named_line(alloc: Global, word: &str, name: &str) -> Result<Vec<u8>, NoMemory>
    ensures { IfOk result (λ v. v.items ≡ named_line word.now name.now) }
{
    let line = format!(in alloc; "{word} {name}\n")?;
    Ok(line.into_bytes())
}

/// What an error of the shelf at a name ends the command with.
pub fn stop_of(alloc: Global, error: ShelfError, name: &str) -> Stop
    ensures { IsStopOf error name.now result }
{
    match error {
        ShelfError::Absent => ends_with(alloc, Cause::Absent, "absent", name),
        ShelfError::TooLong => ends_with(alloc, Cause::TooLong, "too long", name),
        ShelfError::Failed => fault_at(alloc, name),
        ShelfError::NoMemory => Stop::NoMemory,
    }
}

/// An ending with the line of a word and a name.
fn ends_with(alloc: Global, cause: Cause, word: &str, name: &str) -> Stop
    ensures { IsEnding result (status_of cause) (named_line word.now name.now) }
{
    line_stop(cause, named_line(alloc, word, name))
}

/// An ending with a line, if there was memory for it.
pub fn line_stop(cause: Cause, line: Result<Vec<u8>, NoMemory>) -> Stop
    ensures { result ≡ line_stop cause line }
{
    match line {
        Ok(line) => Stop::Ends { cause, line },
        Err(NoMemory) => Stop::NoMemory,
    }
}

/// A fault of the shelf at a name.
fn fault_at(alloc: Global, name: &str) -> Stop
    ensures { IsFault result name.now }
{
    match named_line(alloc, "shelf fault", name) {
        Ok(line) => Stop::Fault { line },
        Err(NoMemory) => Stop::NoMemory,
    }
}
