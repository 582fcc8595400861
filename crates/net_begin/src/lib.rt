//! The begin of a cycle at all devices of a network: each begins it by its own clock, and what it releases is put into
//! the queue of the cycle.
#![tactic(auto)]

pub mod clocks;
pub mod switches;
