//! Why a command stopped before its end.

use irt_base::memory::NoMemory;
use std::alloc::AllocError;

/// What a step ended a command for.
#[derive(Clone, Copy, PartialEq, Eq)]
pub enum Cause {
    /// The words are no command.
    Usage,
    /// A file is not there.
    Absent,
    /// A file is longer than its limit.
    TooLong,
    /// The plant breaks a rule.
    Plant,
    /// No walk of links leads where one has to.
    NoWalk,
    /// A device file is malformed.
    Malformed,
    /// The blocks break a check rule.
    Reject,
    /// No plan has room for a frame.
    Overrun,
    /// A world file is wrong.
    World,
    /// A run is too long.
    LongRun,
}

impl Cause {
    ghost use Rattle.std.specs.Prelude.{◌≡◌};
    ghost use Rattle.irt_steps.specs.Follow.{status_of};

    /// The status with which the program ends.
    pub fn status(self) -> u8
        ensures { result ≡ status_of self }
    {
        match self {
            Cause::Usage => 1,
            Cause::Absent => 3,
            Cause::TooLong => 4,
            Cause::Plant => 5,
            Cause::NoWalk => 6,
            Cause::Malformed => 7,
            Cause::Reject => 8,
            Cause::Overrun => 9,
            Cause::World => 10,
            Cause::LongRun => 11,
        }
    }
}

/// Why a command stopped. Lines end with a line feed.
#[derive(Drop)]
pub enum Stop {
    /// Memory ran out.
    NoMemory,
    /// The shelf failed.
    Fault { line: Vec<u8> },
    /// A step ended the command.
    Ends { cause: Cause, line: Vec<u8> },
}

impl From<NoMemory> for Stop {
    ghost use Rattle.std.specs.Prelude.{◌≡◌};
    ghost use Rattle.irt_steps.specs.declared.stop.Stop.TheVariants as stops;

    ghost from_gives = { λ _ e. e ≡ stops.NoMemory };

    fn from(_cause: NoMemory) -> Stop {
        Stop::NoMemory
    }
}

impl From<AllocError> for Stop {
    ghost use Rattle.std.specs.Prelude.{◌≡◌};
    ghost use Rattle.irt_steps.specs.declared.stop.Stop.TheVariants as stops;

    ghost from_gives = { λ _ e. e ≡ stops.NoMemory };

    fn from(_cause: AllocError) -> Stop {
        Stop::NoMemory
    }
}
