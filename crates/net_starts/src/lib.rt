//! Starts of frames, put into the queue of a cycle: by each port of a set, and for all that a device releases.
#![tactic(auto)]

pub mod releases;
pub mod starts;
