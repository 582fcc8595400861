//! Applications of isochronous stations.
//!
//! An application turns once a cycle: from its state and the input words it makes the output words
//! and its next state. It touches nothing else.
#![tactic(auto)]

pub mod apps;
pub mod kinds;
pub mod seal;

pub use apps::IsoApp;
pub use kinds::AppKind;
