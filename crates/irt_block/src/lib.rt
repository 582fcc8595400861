//! The headers and fields of blocks: what every block is read and written by.
//!
//! Fields are big-endian and padding is zero. A block begins with BlockType, BlockLength and two
//! version bytes, as in IEC 61158-6-10. Reading goes from left to right and stops at the first fault.
#![tactic(auto)]

pub mod bytes;
pub mod extent;
pub mod fault;
pub mod fields;
pub mod header;
pub mod output;

pub use extent::{Extent, Holder};
pub use fault::{BlockFault, BlockKind};
pub use header::{BlockId, open_block, read_header, write_header};
