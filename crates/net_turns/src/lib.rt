//! One turn of a cycle: what an event puts into the journal, and what it causes.
#![tactic(auto)]

pub mod law;
pub mod turns;
