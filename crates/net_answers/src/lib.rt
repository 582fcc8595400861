//! What a device's answer to an arrival makes of the queue and of the journal of a cycle.
#![tactic(auto)]

pub mod answers;
pub mod rows;
