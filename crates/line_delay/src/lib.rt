//! The delay of a link, measured by exchanges of two devices.
//!
//! An exchange has four time stamps, in ns: a request leaves at `t1` and arrives at `t2`, the response
//! leaves at `t3` and arrives at `t4`. The first device's clock stamps `t1` and `t4`, the second's
//! `t2` and `t3`. Half of the time that is left between `t1` and `t4` without the time between `t2`
//! and `t3` is the half round. The delay is the lower median of the last `WINDOW` half rounds that
//! were accepted. Rounding, median and window are the project's own.
#![tactic(auto)]

pub mod honest;
pub mod line;

pub use line::{LineDelay, LineFault};
