//! The way of a demand's frame in plain numbers: its entries, and its sendings and arrivals in times after the offsets
//! of anchors.
#![tactic(auto)]

mod entries;
pub mod frame_way;
mod layout;
mod stops;
pub mod way;
