//! The events of a cycle: starts and arrivals of frames, what each causes and what it puts into the journal; and that
//! a run of events, in whatever order they are handled, gives exactly the rows of the cycle.
#![tactic(auto)]

pub mod events;
pub mod law;
