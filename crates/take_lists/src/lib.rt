//! Lists of takes from an exchange, of which a run records some, and the further word of an output: the number of the
//! input that its turn took.
#![tactic(auto)]

pub mod law;
