//! The top call: from the words of the command line, files and a sink to a status.
#![tactic(auto)]

pub mod check;
pub mod files;
mod generate;
mod line;
mod plan;
pub mod run;
mod show;
mod sync;
pub mod top;
pub mod world;
