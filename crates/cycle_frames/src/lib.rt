//! The frames of a cycle: their bytes by demand, and to which devices they came.
#![tactic(auto)]

pub mod came;
