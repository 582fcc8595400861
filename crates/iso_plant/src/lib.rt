//! The plant of a run: its network and its stations over a world, cycle by cycle. What it holds is the replay of its
//! history, whatever the applications do and whoever turns them.
#![tactic(auto)]

mod begin;
mod cycle;
mod exchange;
pub mod history;
mod made;
pub mod plant;
mod step;
