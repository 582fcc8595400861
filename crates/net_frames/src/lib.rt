//! The frames of one cycle of a network: one queue of starts and arrivals, in which each device acts by its own blocks on
//! the bytes that come to it. The journal gets exactly the rows of the cycle's frames, in their order.
#![tactic(auto)]

pub mod answers;
pub mod frames;
pub mod turns;
