//! The blocks of placed frames.
#![tactic(auto)]

pub mod bundle;
pub mod ends;
pub mod entries;
pub mod periods;
