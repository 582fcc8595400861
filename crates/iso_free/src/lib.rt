//! The free run: the plant's cycles in one thread, and each application in a thread of its own, over exchanges.
#![tactic(auto)]

mod ending;
mod opening;
mod parts;
mod run;
mod shared;
mod threads;

pub use run::run_free;
