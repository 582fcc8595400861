//! The rules of a plan that speak of blocks alone, each as one scan that gives the least place at which it fails.
#![tactic(auto)]

mod device;
mod frames;
mod ports;
pub mod rules;
mod scan;

pub use scan::{
    header_break, orange_break, order_break, range_break, red_frame_break, red_limit_break,
};
