//! The lines of a record's text, and what is known of a record whose text is known.
#![tactic(auto)]

pub mod law;
pub mod line;
