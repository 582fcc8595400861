//! The walks of frames and parcels, and the tree by which clocks follow.
#![tactic(auto)]

pub mod clocks;
pub mod fault;
pub mod laws;
pub mod network;
pub mod next_hops;
pub mod routing;
pub mod tables;
pub mod trees;
pub mod unreached;
pub mod walks;
