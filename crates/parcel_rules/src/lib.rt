//! The parcels of a network: how they are made, offered to the ports, sent, lost and handed over, cycle by cycle,
//! which rows of the journal that gives, and what these rows keep.
//!
//! All definitions speak of a plant, its devices' blocks, the walks of its traffic and a world; none says how rows are
//! found.
#![tactic(auto)]

pub mod handed;
pub mod law;
