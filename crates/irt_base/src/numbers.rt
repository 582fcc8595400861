//! The numbers by which a plant names things, each a type of its own.

/// A time in nanoseconds, which may be negative.
pub type Ns = i64;

/// A device, from 0 in the order of the plant file.
#[derive(Clone, Copy, Debug, PartialEq, Eq, PartialOrd, Ord)]
pub struct DevId(pub u8);

/// A port of a device, from 1.
#[derive(Clone, Copy, Debug, PartialEq, Eq, PartialOrd, Ord, Default)]
pub struct PortNo(pub u8);

/// A FrameID (IEC 61158-6-10: RT_CLASS_3 has 0x0100..0x0FFF).
#[derive(Clone, Copy, Debug, PartialEq, Eq, PartialOrd, Ord)]
pub struct FrameId(pub u16);

/// The status with which the program ends.
#[derive(Clone, Copy, Debug, PartialEq, Eq)]
pub struct Status(pub u8);
