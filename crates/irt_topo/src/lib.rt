//! Plants from their files: the rules P2..P18 as tests in order, and what a file states.
#![tactic(auto)]

pub mod fault;
pub mod law;
pub mod read;
pub mod rules;
pub mod stated;
