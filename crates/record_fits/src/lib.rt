//! The records of runs fit their plants.
#![tactic(auto)]

pub mod law;
