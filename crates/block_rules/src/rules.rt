//! The rules that need no windows, by what they name.

/// A rule of a device's blocks.
#[derive(Clone, Copy, PartialEq, Eq)]
pub enum BlockRule {
    /// By device.
    Device(DeviceRule),
    /// V11, by device and frame: a FrameID lies in the device's red range.
    RedFrame,
    /// By device and port.
    Periods(PeriodRule),
}

/// A rule of a device's blocks as a whole.
#[derive(Clone, Copy, PartialEq, Eq)]
pub enum DeviceRule {
    /// V1: the blocks repeat the plant's numbers.
    Header,
    /// V12: the range of red FrameIDs is the first device's.
    Range,
}

/// A rule of both sides' periods of a port, in every phase.
#[derive(Clone, Copy, PartialEq, Eq)]
pub enum PeriodRule {
    /// V10: red ends by the plant's red limit.
    RedLimit,
    /// V13: orange has the plant's length.
    Orange,
    /// V14: red, orange and green are in order, within the cycle.
    Order,
}
