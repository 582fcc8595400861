//! Why a plant file was refused.

use irt_base::memory::NoMemory;
use thiserror::Error;

/// Why a plant file was refused.
#[derive(Clone, Copy, Debug, PartialEq, Eq, Error)]
pub enum PlantFault {
    /// Memory ran out.
    #[error("out of memory")]
    NoMemory,
    /// The bytes are no TOML document.
    #[error("the plant is no TOML document")]
    NotToml,
    /// The first of the rules P1..P18 that fails, and the least index at which it fails.
    #[error("the plant fails P{number} at {index}")]
    Rule { number: u8, index: u16 },
}

impl From<NoMemory> for PlantFault {
    ghost use Rattle.std.specs.Prelude.{◌≡◌};
    ghost use Rattle.irt_topo.specs.declared.fault.PlantFault.TheVariants as faults;

    ghost from_gives = { λ _ e. e ≡ faults.NoMemory };

    fn from(_cause: NoMemory) -> PlantFault {
        PlantFault::NoMemory
    }
}
