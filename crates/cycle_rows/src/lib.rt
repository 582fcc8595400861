//! The journal of a network: which rows a cycle has, in which order, and what the journal of an accepted plan keeps.
//!
//! In each cycle the rows of frames stand first, sorted, and then those of parcels. All definitions speak of a plant,
//! its devices' blocks and a world; none says how rows are found.
#![tactic(auto)]

pub mod law;
pub mod rows;
