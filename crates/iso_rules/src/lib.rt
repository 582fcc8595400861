//! What stations and their applications do in a run: the words that a provider loads, how long a consumer holds them,
//! its image, the lockstep run of a plant, and which records any run may leave.
//!
//! The definitions stand in `specs/`. They speak of a plant, its devices' blocks, a world and any applications; none
//! says how a run is made.
#![tactic(auto)]

pub mod law;
pub mod turn;
