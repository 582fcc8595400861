//! Why a plant has no first fit.

use irt_base::memory::NoMemory;
use irt_base::numbers::FrameId;
use thiserror::Error;

/// Why a plant has no first fit.
#[derive(Debug, Drop, Error)]
pub enum PlanFault {
    /// Memory ran out.
    #[error("out of memory")]
    NoMemory,
    /// The first frame in the order of placing for which no phase has room.
    #[error("no phase has room for frame {:#06x}", .frame.0)]
    Overrun { frame: FrameId },
}

impl From<NoMemory> for PlanFault {
    ghost use Rattle.std.specs.Prelude.{◌≡◌};
    ghost use Rattle.planner.specs.declared.fault.PlanFault.TheVariants as faults;

    ghost from_gives = { λ _ e. e ≡ faults.NoMemory };

    fn from(_cause: NoMemory) -> PlanFault {
        PlanFault::NoMemory
    }
}
