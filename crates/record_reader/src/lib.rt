//! The record of a run, read from its text.
#![tactic(auto)]

mod draft;
pub mod fault;
mod field;
mod lines;
mod place;
mod reading;
mod row;
mod words;

pub use reading::read_record;
