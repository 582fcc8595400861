//! Two blocks of one device: PDSyncData, 0x0203 version 1.2, and PDIRGlobalData, 0x0206 version 1.1.
//!
//! Types and the begin of a block are those of IEC 61158-6-10; order, widths and limits of the fields
//! are this project's own.
#![tactic(auto)]

mod global;
pub mod law;
mod sync;

pub use global::{global_at, read_global, write_global};
pub use sync::{read_sync, sync_at, write_sync};
