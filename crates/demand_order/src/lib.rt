//! What first fit reads from a demand alone.
#![tactic(auto)]

pub mod ratio;
