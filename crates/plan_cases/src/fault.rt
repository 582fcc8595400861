//! Why a sample gives no plan.

use irt_base::memory::NoMemory;
use irt_topo::fault::PlantFault;
use thiserror::Error;

/// Why a sample gives no plan.
#[derive(Clone, Copy, Debug, PartialEq, Eq, Error)]
pub enum SampleFault {
    /// Memory ran out.
    #[error("out of memory")]
    NoMemory,
    /// Its plant is refused.
    #[error("the plant is refused")]
    Plant(PlantFault),
    /// Some number of its blocks is out of range.
    #[error("the blocks are not valid")]
    Blocks,
}

impl From<NoMemory> for SampleFault {
    fn from(_cause: NoMemory) -> SampleFault {
        SampleFault::NoMemory
    }
}

impl From<PlantFault> for SampleFault {
    fn from(cause: PlantFault) -> SampleFault {
        SampleFault::Plant(cause)
    }
}
