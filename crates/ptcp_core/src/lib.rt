//! Clocks that follow a master by sync messages.
//!
//! The master sends sync messages with its time; each device on the way adds the delay of the link by
//! which the message came and the time that it stayed; a slave takes its offset from the master's
//! time. Messages, rounding and the budget are the project's own: they keep the ideas of PTCP
//! (IEC 61158-6-10), and not its wire layout.
#![tactic(auto)]

pub mod honest;
pub mod law;
pub mod master;
pub mod messages;
pub mod read;
pub mod relays;
pub mod slave;
pub mod write;

pub use master::Master;
pub use read::read_msg;
pub use relays::relay;
pub use slave::Slave;
pub use write::write_msg;
