//! The plant of a free run with the passes of its cycles, as it lies under a lock: what is recorded of an app is what its
//! exchanges gave and were given. Nothing here waits or starts a thread.
#![tactic(auto)]

pub mod buffers;
pub mod locked;
pub mod naming;
pub mod ports;
pub mod wires;
