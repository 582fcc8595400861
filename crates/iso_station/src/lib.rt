//! The stations of a plant: what a device's provider puts into frames, and what its consumer holds of those that come.
//!
//! A provider turns the words of an application into the frames that are due in a cycle. A consumer takes frames, and
//! at a cycle's end gives the words of all that the device consumes. What came last of a frame it holds for
//! `HOLD_CYCLES` cycles in which the frame is due; then it gives zeros. All memory is taken when a station is made.
#![tactic(auto)]

pub mod consumer;
mod held;
pub mod law;
pub mod mark;
pub mod provider;

pub use consumer::{Accept, Consumer};
pub use provider::Provider;
