//! Plays a plant again with what a record says was taken.
#![tactic(auto)]

mod cycles;
mod ends;
pub mod replay;
mod same;
