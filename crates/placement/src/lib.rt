//! The placement of one frame beside those that are placed: offsets, phase and tables, in plain numbers.
//!
//! A frame's way is a list of anchors, each after those on which its start depends, and of sendings, each of
//! which hangs on an anchor.
#![tactic(auto)]

pub mod gaps;
pub mod layout;
pub mod phases;
pub mod record;
pub mod search;
