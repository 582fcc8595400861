//! How each frame comes to each device, and when the device sends it.
//!
//! The entries of a plan's frames form trees, one a frame, from its provider to its consumers (rule V2). Where they
//! do, each entry has one way: from which parent, in which window and by whose clock.
#![tactic(auto)]

mod behind;
pub mod demands;
mod links;
mod lookups;
mod marking;
mod marks;
pub mod net;
pub mod ports;
mod rules;
pub mod search;
pub mod trees;
pub mod windows;
