//! Why a plant has no routes, or no clock tree.

use irt_base::memory::NoMemory;
use irt_base::numbers::{DevId, FrameId};
use thiserror::Error;

/// Why a plant has no clock tree.
#[derive(Clone, Copy, Debug, PartialEq, Eq, Error)]
pub enum ClockFault {
    /// Memory ran out.
    #[error("out of memory")]
    NoMemory,
    /// The least device to which no walk leads from device 0.
    #[error("no walk leads from device 0 to device {}", .device.0)]
    NoClock { device: DevId },
}

impl From<NoMemory> for ClockFault {
    ghost use Rattle.std.specs.Prelude.{◌≡◌};
    ghost use Rattle.irt_route.specs.declared.fault.ClockFault.TheVariants as faults;

    ghost from_gives = { λ _ e. e ≡ faults.NoMemory };

    fn from(_cause: NoMemory) -> ClockFault {
        ClockFault::NoMemory
    }
}

/// Why a plant has no routes.
#[derive(Clone, Copy, Debug, PartialEq, Eq, Error)]
pub enum RouteFault {
    /// Memory ran out.
    #[error("out of memory")]
    NoMemory,
    /// The least frame with a consumer to which no walk leads, and the least such consumer.
    #[error("no walk leads to consumer {} of frame {:#06x}", .device.0, .frame.0)]
    Unreachable { frame: FrameId, device: DevId },
    /// All consumers have walks, and this is the first traffic entry without one.
    #[error("no walk leads to the target of traffic {traffic}")]
    NoPath { traffic: u16 },
}

impl From<NoMemory> for RouteFault {
    ghost use Rattle.std.specs.Prelude.{◌≡◌};
    ghost use Rattle.irt_route.specs.declared.fault.RouteFault.TheVariants as faults;

    ghost from_gives = { λ _ e. e ≡ faults.NoMemory };

    fn from(_cause: NoMemory) -> RouteFault {
        RouteFault::NoMemory
    }
}
