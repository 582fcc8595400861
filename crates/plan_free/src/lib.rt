//! Free runs with the applications that a plant names.
#![tactic(auto)]

mod run;

pub use run::Free;
