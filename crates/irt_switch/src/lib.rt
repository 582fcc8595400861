//! One device of the network, by its own blocks alone: what it starts itself in a cycle, what it does with frames that
//! arrive, and the gates of its ports.
//!
//! A device that is not in step in a cycle sends nothing in it and drops each frame that arrives; its parcels wait. All
//! memory is taken when the switch is made.
#![tactic(auto)]

pub mod action;
mod entries;
mod gates;
pub mod law;
mod ports;
mod release;
pub mod switch;

pub use action::{Action, Cause, Outgoing, PortSet};
pub use switch::Switch;
