//! Frames of RT_CLASS_3, read and written in place.
//!
//! | Bytes | Field | Source |
//! |---|---|---|
//! | 6 | destination address: 03-00-00-00 and the FrameID | the project's own |
//! | 6 | source address: 02-00-00-00-00 and the device's number | the project's own |
//! | 2 | Ethertype 0x8892 | IEC 61158-6-10 |
//! | 2 | FrameID, 0x0100..0x0FFF | IEC 61158-6-10 |
//! | 40..1440 | the data (C_SDU), a multiple of 8 bytes | the limits are the project's own |
//! | 2 | CycleCounter, in units of 31.25 microseconds | IEC 61158-6-10 |
//! | 1 | DataStatus, by bits | IEC 61158-6-10 |
//! | 1 | TransferStatus, 0 | IEC 61158-6-10 |
//!
//! Numbers are big-endian. Preamble, VLAN tag and check sequence are not part of these bytes. Which
//! DataStatus is sent, and which of its bits a receiver looks at, is up to the caller.
#![tactic(auto)]

pub mod fault;
pub mod frame;
pub mod frames;
pub mod law;
pub mod read;
pub mod write;

pub use fault::FrameFault;
pub use frame::Rtc3;
pub use frames::Frames;
pub use read::read_rtc3;
pub use write::write_rtc3;
