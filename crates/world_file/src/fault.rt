//! Why a world file is not read.

use irt_base::memory::NoMemory;
use thiserror::Error;

/// Why a world file is not read.
#[derive(Clone, Copy, Debug, PartialEq, Eq, Error)]
pub enum WorldFault {
    /// Memory ran out.
    #[error("out of memory")]
    NoMemory,
    /// A line, from 1, is wrong. The place 0 is the line as a whole: it is not of the form, has a wrong count of errors
    /// or bridge delays, is missing, or is one too many. Any other place is the number, from 1 over the whole line, of a
    /// value that is out of its range or out of order.
    #[error("line {line} is wrong at place {place}")]
    Refused { line: u32, place: u32 },
}

impl From<NoMemory> for WorldFault {
    ghost use Rattle.std.specs.Prelude.{◌≡◌};
    ghost use Rattle.world_file.specs.declared.fault.WorldFault.TheVariants as faults;

    ghost from_gives = { λ _ e. e ≡ faults.NoMemory };

    fn from(_cause: NoMemory) -> WorldFault {
        WorldFault::NoMemory
    }
}

/// Why a line is not read.
#[derive(Clone, Copy, Debug, PartialEq, Eq, Error)]
pub(crate) enum LineFault {
    #[error("out of memory")]
    NoMemory,
    /// It is not of the form, or has a wrong count of errors or bridge delays.
    #[error("not of the form of a line")]
    Form,
}

impl From<NoMemory> for LineFault {
    ghost use Rattle.std.specs.Prelude.{◌≡◌};
    ghost use Rattle.world_file.specs.declared.fault.LineFault.TheVariants as faults;

    ghost from_gives = { λ _ e. e ≡ faults.NoMemory };

    fn from(_cause: NoMemory) -> LineFault {
        LineFault::NoMemory
    }
}

impl From<Form> for LineFault {
    ghost use Rattle.std.specs.Prelude.{◌≡◌};
    ghost use Rattle.world_file.specs.declared.fault.LineFault.TheVariants as faults;

    ghost from_gives = { λ _ e. e ≡ faults.Form };

    fn from(_cause: Form) -> LineFault {
        LineFault::Form
    }
}

/// A text is not of the form wanted.
#[derive(Clone, Copy, Debug, PartialEq, Eq, Error)]
#[error("not of the form wanted")]
pub(crate) struct Form;
