//! The end of a free run: exchanges are closed, and what its cycles recorded of each app, with the app's turns, is legal.
#![tactic(auto)]

pub mod closing;
pub mod ending;
