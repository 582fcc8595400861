//! Why bytes are no frame.

use thiserror::Error;

/// Why bytes are no frame: the first cause that applies, in this order.
#[derive(Clone, Copy, Debug, PartialEq, Eq, Error)]
pub enum FrameFault {
    /// Fewer than 60 bytes.
    #[error("the frame is too short")]
    Short,
    /// More than 1460 bytes, or data that are no multiple of 8 bytes.
    #[error("the frame has no length of a frame")]
    BadLength,
    /// Another Ethertype than 0x8892.
    #[error("the frame has another Ethertype")]
    BadEthertype,
    /// A FrameID outside 0x0100..0x0FFF.
    #[error("the FrameID is not one of RT_CLASS_3")]
    BadFrameId,
    /// A TransferStatus other than 0.
    #[error("the transfer status is not 0")]
    BadTransfer,
}
