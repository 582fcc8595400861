//! Worlds: what the outside does in each send cycle. A row gives each clock's error, the delay of each frame that a
//! relative device sends on, and the links that are cut.
#![tactic(auto)]

pub mod forwardings;
pub mod law;
pub mod rows;
pub mod seeded;
