//! What the turns of a cycle look up: the plant, its links by port, and the entries whose frames a row delays.
#![tactic(auto)]

pub mod site;
