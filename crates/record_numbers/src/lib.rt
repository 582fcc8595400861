//! What the types of a record say of its numbers.
#![tactic(auto)]

pub mod numbers;
