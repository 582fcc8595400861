//! What is at the other end of a port, and how long a hop there takes, found in constant time.
#![tactic(auto)]

pub mod index;
