//! Runs of an accepted plan over a world, with the plant's applications.
#![tactic(auto)]

mod apps;
mod closing;
mod cycle;
mod ends;
pub mod lengths;
pub mod lockstep;
mod opening;
mod turns;
