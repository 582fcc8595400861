//! The buffer exchange between a producer and a consumer of words: on one thread, and shared by two threads
//! over single atomic steps, where neither side ever waits.
#![tactic(auto)]

mod control;
pub mod ends;
pub mod laws;
pub mod opening;
pub mod plain;
mod rows;
pub mod shared;
pub mod taken;
pub mod views;
