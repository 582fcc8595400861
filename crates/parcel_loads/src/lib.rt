//! The parcels of a network in code: where they are between two cycles, and what becomes of each at the beginning of a
//! cycle, by the definitions of `parcel_rules`.
//!
//! The gates of the ports are the switches' own. Nothing here takes memory once it is made.
#![tactic(auto)]

pub mod flight;
pub mod law;
pub mod made;
pub mod passing;
pub mod room;
pub mod rows;
pub mod steps;
