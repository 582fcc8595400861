//! The rules of a plan: what V1..V15 ask of a plant and its devices' blocks, and what follows from them.
//!
//! The rules stand in `specs/`, one fact each, over a place.
#![tactic(auto)]

pub mod law;
pub mod place;
pub mod way;
pub mod ways;
