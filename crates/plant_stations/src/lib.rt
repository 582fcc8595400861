//! All stations of a plant: what the devices' providers load into the frames of a cycle, and what the applications'
//! devices hold of the frames that come.
#![tactic(auto)]

pub mod law;
mod making;
mod receiver;
mod sender;
pub mod stations;
pub mod widths;

pub use stations::Stations;
