//! Why a record is not read.

use irt_base::memory::NoMemory;
use thiserror::Error;

/// Why a record is not read.
#[derive(Clone, Copy, Debug, PartialEq, Eq, Error)]
pub enum RecordFault {
    /// Memory ran out.
    #[error("out of memory")]
    NoMemory,
    /// The first line, from 1, with which the text begins no record's text.
    #[error("line {0} is not of a record")]
    Line(u32),
}

impl From<NoMemory> for RecordFault {
    ghost use Rattle.std.specs.Prelude.{◌≡◌};
    ghost use Rattle.record_reader.specs.declared.fault.RecordFault.TheVariants as faults;

    ghost from_gives = { λ _ e. e ≡ faults.NoMemory };

    fn from(_cause: NoMemory) -> RecordFault {
        RecordFault::NoMemory
    }
}

/// Why a line is not read.
#[derive(Clone, Copy, Debug, PartialEq, Eq, Error)]
pub(crate) enum LineFault {
    #[error("out of memory")]
    NoMemory,
    /// It is not of the form of a line.
    #[error("not of the form of a line")]
    Form,
}

impl From<NoMemory> for LineFault {
    ghost use Rattle.std.specs.Prelude.{◌≡◌};
    ghost use Rattle.record_reader.specs.declared.fault.LineFault.TheVariants as faults;

    ghost from_gives = { λ _ e. e ≡ faults.NoMemory };

    fn from(_cause: NoMemory) -> LineFault {
        LineFault::NoMemory
    }
}

impl From<Form> for LineFault {
    ghost use Rattle.std.specs.Prelude.{◌≡◌};
    ghost use Rattle.record_reader.specs.declared.fault.LineFault.TheVariants as faults;

    ghost from_gives = { λ _ e. e ≡ faults.Form };

    fn from(_cause: Form) -> LineFault {
        LineFault::Form
    }
}

/// A text is not of the form wanted.
#[derive(Clone, Copy, Debug, PartialEq, Eq, Error)]
#[error("not of the form wanted")]
pub(crate) struct Form;
