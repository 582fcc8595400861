//! Printing what a device file holds.
#![tactic(auto)]

mod blocks;
mod lines;

pub use blocks::print_bundle;
