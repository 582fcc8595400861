//! The words of the command line: what they ask for, read by `clap`.
//!
//! `read_words` takes words to the command that they ask for. Which words ask for which is the function
//! `asked_of` of the specs: the arguments that `clap`'s written definition of the command `irt` finds, each
//! number and each file's name as checked.
#![tactic(auto)]

pub mod asked;
mod grammar;
pub mod law;
pub mod reading;
