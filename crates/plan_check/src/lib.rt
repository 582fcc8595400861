//! The check of a plan: the rules V1..V15 in their order, the first that fails with its least place, and the type of
//! plans that were accepted.
#![tactic(auto)]

pub mod accepted;
pub mod check;
mod clocks;
mod order;
mod scans;
