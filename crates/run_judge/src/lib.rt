//! Whether a record is legal: one that some run of accepted blocks may leave, in whatever order its applications turn.
#![tactic(auto)]

mod apps;
mod devices;
mod kept;
mod legal;

pub use legal::judge;
