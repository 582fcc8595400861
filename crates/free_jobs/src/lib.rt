//! The turns of an app of a free run, which hold on to the number of the input that each of them took. A turn waits for
//! that input; nothing here starts a thread.
#![tactic(auto)]

pub mod firsts;
pub mod jobs;
