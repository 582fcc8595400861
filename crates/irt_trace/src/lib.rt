//! The journal of a run as text: a line for each row.
#![tactic(auto)]

mod fields;
mod lines;

pub use lines::print_journal;
