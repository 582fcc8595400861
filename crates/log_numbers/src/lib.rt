//! Tests of the numbers in what a record has of an app: how many takes, images and turns there are, and which numbers
//! its takes have.
#![tactic(auto)]

mod answer;
mod counts;
mod near;
mod pace;
mod risen;
mod windows;

pub use counts::has_each_cycle;
pub use pace::keeps_up;
pub use risen::never_falls_back;
pub use windows::has_windows;
