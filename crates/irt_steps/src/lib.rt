//! A command as its steps: what it loads and stores, how it may end, and how it prints.
//!
//! `load_file` and `store_file` are the only functions of the program that touch a shelf, and `finish` is the only
//! one that touches a sink. The whole text of a command is there before its first byte is printed.
#![tactic(auto)]

pub mod finish;
pub mod line;
pub mod load;
pub mod print;
pub mod stop;
