//! The record of a run, and its text.
#![tactic(auto)]

mod apps;
mod cursor;
mod fields;
pub mod law;
mod lines;
pub mod part;
mod print;
pub mod record;

pub use cursor::cycle_of;
pub use print::{lettered, print_record};
