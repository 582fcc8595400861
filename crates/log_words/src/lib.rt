//! Tests of the words in what a record has of an app: each take gave a publication, and each turn put out the reply.
#![tactic(auto)]

mod published;
mod turns;
mod whole;

pub use turns::replies;
pub use whole::{has_whole_inputs, has_whole_outputs};
