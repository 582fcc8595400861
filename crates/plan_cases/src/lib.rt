//! Sample plans, for the tests of crates that stand on plans.
#![tactic(auto)]

pub mod fault;
pub mod plans;
pub mod samples;
mod text;
