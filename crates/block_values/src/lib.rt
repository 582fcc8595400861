//! Blocks that are made in memory: the plain ones of a device, and whether blocks are valid, as a test. Readers
//! give valid blocks only.
#![tactic(auto)]

mod frames;
mod periods;
mod plain;
mod whole;

pub use plain::plain_bundle;
pub use whole::{are_bundles, is_bundle};
