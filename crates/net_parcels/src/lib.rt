//! The parcels of one cycle of a network: those that links have brought and those that are made are handed over to the
//! devices, the gates send in what frames leave to them, and the links bring what was sent to the next cycle.
//!
//! What a port sends in a cycle rests on its own gate alone, so the ports are taken one after the other, in the order of the journal.
#![tactic(auto)]

pub mod bringing;
pub mod handing;
pub mod notes;
pub mod opening;
mod outbox;
pub mod outlets;
pub mod parcels;
pub mod playing;
pub mod rows;
pub mod sending;
