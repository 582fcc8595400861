//! Plain types of plants and blocks, limits, formulas of one value, and number texts.
//!
//! Every crate of the workspace stands on this one. Times are whole nanoseconds, lengths are bytes
//! and cycles count from 0.
#![tactic(auto)]

pub mod blocks;
pub mod cycles;
pub mod limits;
pub mod list;
pub mod memory;
pub mod numbers;
pub mod plants;
pub mod texts;
