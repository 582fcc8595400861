//! Why a plant file's shape was not read.

use irt_base::memory::NoMemory;
use std::alloc::{AllocError, AllocFailed};
use thiserror::Error;

/// Why a plant file's shape was not read.
#[derive(Clone, Copy, Debug, PartialEq, Eq, Error)]
pub enum ShapeFault {
    /// Memory ran out.
    #[error("out of memory")]
    NoMemory,
    /// The bytes are no TOML document.
    #[error("the plant is no TOML document")]
    NotToml,
    /// A key is unknown or missing, or a value has another type or is no choice of its key.
    #[error("the plant has not the keys and types of a plant")]
    Shape,
}

impl From<NoMemory> for ShapeFault {
    ghost use Rattle.std.specs.Prelude.{◌≡◌};
    ghost use Rattle.plant_shape.specs.declared.fault.ShapeFault.TheVariants as faults;

    ghost from_gives = { λ _ e. e ≡ faults.NoMemory };

    fn from(_cause: NoMemory) -> ShapeFault {
        ShapeFault::NoMemory
    }
}

impl From<AllocError> for ShapeFault {
    ghost use Rattle.std.specs.Prelude.{◌≡◌};
    ghost use Rattle.plant_shape.specs.declared.fault.ShapeFault.TheVariants as faults;

    ghost from_gives = { λ _ e. e ≡ faults.NoMemory };

    fn from(_cause: AllocError) -> ShapeFault {
        ShapeFault::NoMemory
    }
}

impl<T: Drop> From<AllocFailed<T>> for ShapeFault {
    ghost use Rattle.std.specs.Prelude.{◌≡◌};
    ghost use Rattle.plant_shape.specs.declared.fault.ShapeFault.TheVariants as faults;

    ghost from_gives = { λ _ e. e ≡ faults.NoMemory };

    fn from(_cause: AllocFailed<T>) -> ShapeFault {
        ShapeFault::NoMemory
    }
}
