//! The bytes that a field may use.

ghost use Rattle.std.specs.Prelude.{◌≡◌, ◌<◌, ◌^◌, length};
ghost use Rattle.irt_block.specs.Reading.{input_of, missing_of};

use crate::fault::{BlockFault, BlockKind};

/// What holds the fields.
#[derive(Clone, Copy, PartialEq, Eq)]
pub enum Holder {
    /// The whole input.
    Input,
    /// A block whose BlockLength stands at this offset.
    Block(u32),
}

/// Where the bytes end that a field may use, as an offset, and what holds them.
#[derive(Clone, Copy, PartialEq, Eq)]
pub struct Extent {
    pub end: usize,
    pub holder: Holder,
}

impl Extent {
    /// The whole input.
    pub fn of_input(bytes: &[u8]) -> Extent
        ensures { result ≡ input_of (length bytes.now) }
    {
        Extent {
            end: bytes.len(),
            holder: Holder::Input,
        }
    }

    /// The fault of a field that passes the end.
    pub fn missing(self) -> BlockFault
        requires { self.end < 2 ^ 32 }
        ensures { result ≡ missing_of self }
    {
        match self.holder {
            Holder::Input => BlockFault {
                kind: BlockKind::Short,
                offset: self.end as u32,
            },
            Holder::Block(length_at) => BlockFault {
                kind: BlockKind::BadLength,
                offset: length_at,
            },
        }
    }
}
