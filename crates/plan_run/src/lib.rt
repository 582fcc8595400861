//! Runs of accepted plans: how large one is, the world of a seed, and the text of the run.
#![tactic(auto)]

pub mod law;
pub mod run;
pub mod size;
pub mod world;
