//! First fit of all demands of a plant: their order, the placing of one after the other, and the bundles.
#![tactic(auto)]

pub mod bundles;
pub mod ends;
pub mod fault;
pub mod frame;
pub mod placed;
pub mod planning;
pub mod step;
pub mod turns;
pub mod ways;
