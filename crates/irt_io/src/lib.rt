//! What the program reads and writes through: shelves of named files and sinks of bytes.
//!
//! A shelf and a sink each count their faults. A call fails by a fault only where that count rose.
#![tactic(auto)]

pub mod bytes;
pub mod folder;
pub mod mem_shelf;
pub mod mem_sink;
pub mod script;
pub mod shelf;
pub mod sink;
pub mod stdout;
pub mod sure_shelf;
pub mod sure_sink;
