//! First fit: which plan it is, of a plant and its routes.
//!
//! The definitions stand in `specs/`, from one frame's entries to the blocks of all devices.
#![tactic(auto)]

pub mod fixed;
pub mod frame_plan;
pub mod law;
