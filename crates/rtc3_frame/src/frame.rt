//! The fields of a frame.

use irt_base::numbers::FrameId;

/// The Ethertype of PROFINET.
pub const ETHERTYPE: u16 = 0x8892;

/// The bytes of a frame before its data: the addresses, the Ethertype and the FrameID.
pub const HEAD: usize = 16;

/// The bytes of a frame behind its data: the cycle counter and the two status bytes.
pub const TAIL: usize = 4;

/// A frame that was read. It borrows its data.
#[derive(Clone, Copy, PartialEq, Eq)]
pub struct Rtc3<'a> {
    /// The destination address, as it was read.
    pub destination: [u8; 6],
    /// The source address, as it was read.
    pub source: [u8; 6],
    pub frame: FrameId,
    /// The data, IOPS included.
    pub csdu: &'a [u8],
    /// CycleCounter, in units of 31.25 microseconds.
    pub counter: u16,
    /// DataStatus.
    pub status: u8,
}
