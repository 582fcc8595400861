//! A queue of events in reserved room: the event taken out is one that no other lies before.
#![tactic(auto)]

pub mod queue;
