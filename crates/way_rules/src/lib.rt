//! The rules of a plan's frames along their ways (V3 to V9), each as one scan.
//!
//! A scan answers nothing where its rule holds everywhere, and else the least place at which it fails: by
//! device, port, frame and other frame. Times are ns.
#![tactic(auto)]

pub mod clash;
pub mod demands;
pub mod ends;
mod entry_rule;
pub mod offsets;
pub mod red;
mod scan;
mod starts;
