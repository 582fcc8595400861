//! The journal of a run, in room that is made beforehand.
#![tactic(auto)]

pub mod journal;
