//! What the plant rules P2..P18 say of a plant, and the wiring between its devices.
//!
//! The rules stand in `specs/Rules` as facts at an index, and in `specs/Meets` as facts of whole lists. `irt_topo`
//! reads plant files by them.
#![tactic(auto)]

pub mod wiring;
