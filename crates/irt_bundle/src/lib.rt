//! The device file: PDSyncData, and then PDIRData, block 0x0205 version 1.1, and nothing else.
//!
//! The fields of PDIRData, in order: padding 2; SlotNumber u16; SubslotNumber u16; PDIRGlobalData;
//! PDIRFrameData; PDIRBeginEndData. In these three, missing bytes are counted to PDIRData's end.
//! Types and the begin of a block are those of IEC 61158-6-10; order and widths of the fields are this
//! project's own.
#![tactic(auto)]

pub mod law;
mod reading;
mod writing;

pub use reading::read_bundle;
pub use writing::write_bundle;
