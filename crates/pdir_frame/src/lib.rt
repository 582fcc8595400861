//! PDIRFrameData, block 0x0207 version 1.1: the frames at one device.
//!
//! The fields, in order: padding 2; FrameDataProperties u32 (0 absolute, 1 relative); and to the
//! block's end entries of 20 bytes each: FrameSendOffset u32, DataLength u16, ReductionRatio u16,
//! Phase u16, FrameID u16, Ethertype u16, RxPort u8, FrameDetails u8, NumberOfTxPortGroups u8,
//! TxPortGroup u8, padding 2. The type, the begin of a block and the Ethertype are those of
//! IEC 61158-6-10; order, widths and limits of the fields are this project's own.
#![tactic(auto)]

mod entry;
pub mod law;
mod reading;
mod writing;

pub use reading::{frames_at, read_frames};
pub use writing::write_frames;
