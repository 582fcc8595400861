//! Frames that came.

use irt_base::numbers::DevId;

/// The frame of a demand, by the demand's number, came to a device.
#[derive(Clone, Copy, PartialEq, Eq)]
pub struct Came {
    pub device: DevId,
    pub demand: u16,
}
