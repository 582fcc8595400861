//! The shape of a plant file: which tables and keys it has, of which types. What the numbers and names
//! of a plant have to meet beyond that is for the crate above.
#![tactic(auto)]

pub mod choices;
pub mod fault;
pub mod keys;
pub mod lists;
pub mod look;
pub mod raw;
pub mod shape;
pub mod tables;
