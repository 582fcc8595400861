//! World files: a line of text for each send cycle.
#![tactic(auto)]

mod draft;
pub mod fault;
pub mod law;
mod line;
mod number;
pub mod reading;
