//! The collision rule of one link direction: two frames that share a cycle keep clear of each other.
//!
//! Decided by neighbours in the order of time, phase by phase, and not by all pairs. Only where
//! the rule fails, the pairs are tried in the order of their FrameIDs, for the least that fails it.
#![tactic(auto)]

pub mod pairs;
pub mod slot;
pub mod sweep;
pub mod valid;
