//! The three-slot exchange of one producer and one consumer, as a machine over plain words.
//!
//! Three slots have a row of words each. The producer writes the draft row and publishes it by changing
//! it with the middle one; the consumer takes the middle row by changing it with the front one, and reads
//! the front row. So neither ever waits for the other, and a row that is read is never written.
#![tactic(auto)]

pub mod laws;
pub mod runs;
pub mod slots;
pub mod steps;
