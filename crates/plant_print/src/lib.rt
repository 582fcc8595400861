//! Printing plant files.
#![tactic(auto)]

pub mod build;
pub mod names;
pub mod print;
pub mod tables;
