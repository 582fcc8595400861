//! What the switches of an accepted plan answer, as events of the cycle: what they release is what a run begins with,
//! and what they answer to arrivals is what arrivals cause.
#![tactic(auto)]

pub mod law;
