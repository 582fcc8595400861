//! What first fit writes into every device's blocks.

/// Takeover factor and startup time of a sync block.
pub const TAKEOVER: u16 = 3;

pub const STARTUP: u16 = 60;

/// The properties of the sync block of device 0, whose clock the others follow, and of any other.
pub const CLOCK_SOURCE: u16 = 1;

pub const CLOCK_SINK: u16 = 2;

/// The priorities of a sync block.
pub const PRIORITY_1: u8 = 1;

pub const PRIORITY_2: u8 = 255;

/// The slot and the subslot of PDIRData.
pub const SLOT: u16 = 0;

pub const SUBSLOT: u16 = 0x8000;
