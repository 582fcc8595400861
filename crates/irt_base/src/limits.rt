//! The limits and fixed numbers of the project, each in one place.

/// Least and greatest number of devices in a plant. Devices count from 0.
pub const MIN_DEVICES: usize = 1;

pub const MAX_DEVICES: usize = 64;

/// Greatest number of ports of a device. Ports count from 1.
pub const MAX_PORTS: usize = 7;

/// Greatest number of demands of a plant, and of entries of a frame block.
pub const MAX_DEMANDS: usize = 512;

/// Greatest number of traffic entries of a plant.
pub const MAX_TRAFFIC: usize = 64;

/// Greatest length of a device's name, in bytes.
pub const MAX_NAME: usize = 32;

/// Greatest length of a sync domain's name, in bytes.
pub const MAX_DOMAIN_NAME: usize = 240;

/// Greatest window (how far a clock may be off and still be in step), in ns.
pub const MAX_WINDOW: u32 = 10000;

/// The guard before a cycle's end, in windows.
pub const GUARD_WINDOWS: u32 = 2;

/// Greatest delay of a port, a link or a bridge, in ns.
pub const MAX_DELAY: u32 = 100000;

/// Greatest send clock factor.
pub const MAX_FACTOR: u16 = 128;

/// What a send clock factor counts, in ns (31.25 microseconds, IEC 61158-6-10).
pub const FACTOR_TIME: u32 = 31250;

/// The time of one byte at 100 Mbit/s, in ns.
pub const BYTE_TIME: u32 = 80;

/// The bytes that a frame takes on the wire beside its data: preamble 8, Ethernet header 14,
/// FrameID 2, cycle counter, data status and transfer status 4, check sequence 4, gap 12.
pub const FRAME_OVERHEAD: u32 = 44;

/// The bytes that a parcel takes on the wire beside its own: preamble 8, check sequence 4, gap 12.
pub const PARCEL_OVERHEAD: u32 = 24;

/// Least and greatest data length of a frame, in bytes; lengths are multiples of `DATA_STEP`.
pub const MIN_DATA: u16 = 40;

pub const MAX_DATA: u16 = 1440;

pub const DATA_STEP: u16 = 8;

/// The FrameIDs that a plan may use.
pub const MIN_FRAME: u16 = 0x0100;

pub const MAX_FRAME: u16 = 0x06FF;

/// The last FrameID of RT_CLASS_3 (IEC 61158-6-10).
pub const MAX_RED_FRAME: u16 = 0x0FFF;

/// The phases of a period block: every reduction ratio divides this number.
pub const PHASES: u16 = 16;

/// Greatest number of period assignments of a port.
pub const MAX_ASSIGNMENTS: usize = 16;

/// Most words (of 8 bytes) that a device consumes, or provides, in all.
pub const MAX_WORDS: u32 = 4096;

/// Least and greatest length of a parcel, in bytes.
pub const MIN_PARCEL: u16 = 60;

pub const MAX_PARCEL: u16 = 1514;

/// Greatest `every` (cycles) and `count` (parcels) of a traffic entry.
pub const MAX_EVERY: u32 = 10000;

pub const MAX_COUNT: u8 = 8;

/// Greatest number of cycles between two sync messages.
pub const MAX_SEND: u32 = 1000;

/// Greatest number of lost sync messages before a device mutes.
pub const MAX_TIMEOUT: u16 = 100;

/// Greatest drift (ns per cycle) and error of a time stamp (ns).
pub const MAX_DRIFT: u32 = 1000;

pub const MAX_STAMP: u32 = 1000;

/// Least (other than 0) and greatest divisor of the loss draw.
pub const MIN_LOSS: u32 = 2;

pub const MAX_LOSS: u32 = 65535;

/// Greatest size of a plant file, of a device file and of a world file, in bytes.
pub const PLANT_FILE: usize = 1048576;

pub const DEVICE_FILE: usize = 131072;

pub const WORLD_FILE: usize = 67108864;

/// The bytes of a word, the unit of a frame's data.
pub const WORD_BYTES: usize = 8;

/// Greatest number of cycles of a run.
pub const MAX_CYCLES: u32 = 10000;

/// Greatest error of a clock in a row of a world, either way, in ns.
pub const MAX_ERROR: u32 = 1000000;

/// Greatest size of a run: the rows of its journal, the words of its record, and the numbers of its world.
pub const MAX_ROWS: u64 = 4000000;

pub const MAX_RUN_WORDS: u64 = 16000000;

pub const MAX_WORLD_NUMBERS: u64 = 16000000;

/// In how many cycles, of those in which a frame is due, its last data are held by a consumer: in the
/// one in which they come and the next two.
pub const HOLD_CYCLES: u32 = 3;

/// By how many cycles the plant of a free run may be ahead of an application.
pub const MAX_SLIP: u32 = 8;
