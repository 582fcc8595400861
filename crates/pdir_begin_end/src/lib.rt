//! PDIRBeginEndData, block 0x0208 version 1.0: the periods of one device.
//!
//! The fields, in order: padding 2; StartOfRedFrameID u16; EndOfRedFrameID u16; NumberOfPorts u32;
//! for each port NumberOfAssignments u32, for each assignment six u32 (the begins of the red, orange
//! and green period, Tx and then Rx, in local ns), NumberOfPhases u32, always 16, and for each phase
//! TXPhaseAssignment u16 and RXPhaseAssignment u16. The type and the begin of a block are those of
//! IEC 61158-6-10; order, widths and limits of the fields are this project's own.
#![tactic(auto)]

pub mod law;
mod port;
mod reading;
mod writing;

pub use reading::{periods_at, read_periods};
pub use writing::write_periods;
