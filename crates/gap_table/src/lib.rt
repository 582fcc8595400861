//! The frames placed on a link direction in one phase, and where the next one may go.
//!
//! A search for a free time asks for what blocks a candidate, and goes on behind it: no nanosecond
//! that it jumps over is free.
#![tactic(auto)]

pub mod slot;
pub mod table;
