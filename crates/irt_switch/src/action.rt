//! What a switch answers.

use irt_base::numbers::{FrameId, Ns};

/// A set of ports: bit `i` stands for port `i`, and bit 0 is clear.
pub type PortSet = u8;

/// A frame that the device starts itself.
#[derive(Clone, Copy, Debug, PartialEq, Eq)]
pub struct Outgoing {
    pub frame: FrameId,
    /// When it starts, in local ns of the cycle.
    pub at: Ns,
    /// By which ports it leaves.
    pub ports: PortSet,
}

/// What becomes of a frame that arrives.
#[derive(Clone, Copy, Debug, PartialEq, Eq)]
pub enum Action {
    /// It is sent on.
    Forward {
        /// When it starts, in local ns of the cycle.
        at: Ns,
        /// By which ports it leaves.
        ports: PortSet,
        /// Whether the device keeps it too.
        here: bool,
    },
    /// It is dropped.
    Dropped {
        cause: Cause,
    },
}

/// Why a frame is dropped: the first cause that applies, in this order.
#[derive(Clone, Copy, Debug, PartialEq, Eq)]
pub enum Cause {
    /// The device is not in step in the cycle.
    NotInStep,
    /// The bytes are no frame, or the device receives no frame of this FrameID and length in the cycle.
    UnknownFrame,
    /// The device receives the frame by another port.
    WrongPort,
    /// The frame begins to arrive more than a guard before the port's red period, or ends after it.
    OutsideRx,
    /// An absolute device has to send the frame on before it surely has it.
    TooLate,
}
