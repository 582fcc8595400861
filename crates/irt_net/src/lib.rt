//! The network of an accepted plan, cycle by cycle: the devices' switches, the frames and parcels between them, and the
//! rows that they put into the journal.
#![tactic(auto)]

mod came;
mod frames;
pub mod net;
mod parts;
mod places;
mod switches;
