//! Why bytes are no block.

ghost use Rattle.std.specs.Prelude.{◌≡◌};
ghost use Rattle.irt_block.specs.Reading.{no_memory};

use irt_base::memory::NoMemory;
use std::alloc::{AllocError, AllocFailed};
use thiserror::Error;

/// What is wrong: the first fault from left to right.
#[derive(Clone, Copy, Debug, PartialEq, Eq, Error)]
pub enum BlockKind {
    #[error("out of memory")]
    NoMemory,
    /// The input ends before the block does.
    #[error("the input is too short")]
    Short,
    #[error("another block type")]
    BadType,
    /// BlockLength is not that of the block's fields.
    #[error("wrong block length")]
    BadLength,
    #[error("another block version")]
    BadVersion,
    /// A byte of padding is not 0.
    #[error("padding that is not zero")]
    BadPad,
    /// A field breaks its rule.
    #[error("value out of its range")]
    BadValue,
    /// Bytes are left over.
    #[error("bytes after the end")]
    Trailing,
}

/// A fault, and the offset of the byte that shows it. Want of memory has the offset 0.
#[derive(Clone, Copy, Debug, PartialEq, Eq, Error)]
#[error("{kind} at byte {offset}")]
pub struct BlockFault {
    pub kind: BlockKind,
    pub offset: u32,
}

impl BlockFault {
    fn out_of_memory() -> BlockFault
        ensures { result ≡ no_memory }
    {
        BlockFault {
            kind: BlockKind::NoMemory,
            offset: 0,
        }
    }
}

impl From<NoMemory> for BlockFault {
    ghost from_gives = { λ _ e. e ≡ no_memory };

    fn from(_cause: NoMemory) -> BlockFault {
        BlockFault::out_of_memory()
    }
}

impl From<AllocError> for BlockFault {
    ghost from_gives = { λ _ e. e ≡ no_memory };

    fn from(_cause: AllocError) -> BlockFault {
        BlockFault::out_of_memory()
    }
}

impl<T: Drop> From<AllocFailed<T>> for BlockFault {
    ghost from_gives = { λ _ e. e ≡ no_memory };

    fn from(_cause: AllocFailed<T>) -> BlockFault {
        BlockFault::out_of_memory()
    }
}
