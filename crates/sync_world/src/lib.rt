//! PTCP worlds: the clock errors that a simulated sync domain gives each device in each send cycle, and a report of
//! them.
//!
//! The master is device 0. Its sync messages go down the clock tree. Each device measures the delay of the link to its
//! parent by exchanges, sets its clock by the messages that reach it, drifts in between, and mutes itself where none
//! came for too long. All errors of time stamps, losses and drifts are drawn by a seed. Times are ns.
#![tactic(auto)]

pub mod clocks;
pub mod domain;
pub mod law;
pub mod lines;
pub mod report;
mod table;
pub mod world;
