//! The gate of a port for parcels: an orange and a green queue, which share what the red period of a
//! cycle leaves.
//!
//! In a cycle of the device a parcel starts in local time, at the earliest at the begin of its
//! class's period, and it ends by a limit before the cycle's end. Orange goes before green wherever
//! the first orange parcel would still end by the limit. The queues, their length and this rule are
//! the project's own, and no statement about the standard.
#![tactic(auto)]

pub mod gates;
pub mod parcels;
mod queue;
pub mod sent_list;

pub use gates::Gate;
pub use queue::QUEUE_ROOM;
