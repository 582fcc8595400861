//! Formulas of cycles, frames and clocks.

ghost use Rattle.std.specs.Prelude.{◌≡◌, ◌≤◌, ◌<◌, ◌↔◌, length, IsTrue};
ghost use Rattle.irt_base.specs.Cycle.{IsDue, SharesCycle, wire_time, cycle_time, guard_time, budget_time};
ghost use Rattle.irt_base.specs.Periods.{period_at};
ghost use Rattle.irt_base.specs.Valid.{IsPeriodBlock, IsRate};

use crate::blocks::{Period, PeriodBlock, Side};
use crate::limits::{
    BYTE_TIME, FACTOR_TIME, FRAME_OVERHEAD, GUARD_WINDOWS, MAX_DATA, MAX_DRIFT, MAX_SEND,
    MAX_STAMP, MAX_TIMEOUT, MAX_WINDOW,
};
use crate::numbers::PortNo;

/// Whether a frame of this reduction ratio and phase is sent in cycle `k`.
pub fn due(k: u32, ratio: u16, phase: u16) -> bool
    requires { 1 ≤ ratio }
    ensures { IsTrue result ↔ IsDue k ratio phase }
{
    k % u32::from(ratio) + 1 == u32::from(phase)
}

/// Whether two frames, by ratio and phase, are both sent in some cycle.
pub fn share(r1: u16, p1: u16, r2: u16, p2: u16) -> bool
    requires first { IsRate r1 p1 }
    requires second { IsRate r2 p2 }
    ensures { IsTrue result ↔ SharesCycle r1 p1 r2 p2 }
{
    let least = r1.min(r2);
    (p1 - 1) % least == (p2 - 1) % least
}

/// How long a frame with `n` bytes of data occupies a link, the gap behind it included, in ns.
pub fn wire(n: u16) -> u32
    requires { n ≤ MAX_DATA }
    ensures { result ≡ wire_time n }
{
    (u32::from(n) + FRAME_OVERHEAD) * BYTE_TIME
}

/// The length of a send cycle, in ns.
pub fn cycle_length(factor: u8) -> u32
    ensures { result ≡ cycle_time factor }
{
    u32::from(factor) * FACTOR_TIME
}

/// The guard before a cycle's end, in ns.
pub fn guard(window: u32) -> u32
    requires { window ≤ MAX_WINDOW }
    ensures { result ≡ guard_time window }
{
    GUARD_WINDOWS * window
}

/// By how much a clock that follows PTCP over `hops` links may be off, in ns.
pub fn budget_over(hops: u32, stamp: u32, drift: u32, send: u32, timeout: u16) -> u64
    requires stamps { stamp ≤ MAX_STAMP }
    requires drifts { drift ≤ MAX_DRIFT }
    requires sends { send ≤ MAX_SEND }
    requires timeouts { timeout ≤ MAX_TIMEOUT }
    ensures { result ≡ budget_time hops stamp drift send timeout }
{
    let line = u64::from(hops) * (4 * u64::from(stamp) + 1);
    line + 2 * u64::from(stamp) + u64::from(drift) * u64::from(send) * u64::from(timeout)
}

/// The period of a port in cycle `k`.
pub fn period(block: &PeriodBlock, port: PortNo, k: u32, side: Side) -> Period
    requires valid { IsPeriodBlock block.now }
    requires from_one { 1 ≤ port.0 }
    requires there { port.0 ≤ length block.now.ports }
    ensures { period_at block.now port.0 k side ≡ Some result }
{
    let ports = &block.ports.as_slice()[usize::from(port.0) - 1];
    let pair = ports.phases.as_slice()[(k % 16) as usize];
    match side {
        Side::Tx => ports.assignments.as_slice()[usize::from(pair.tx)].tx,
        Side::Rx => ports.assignments.as_slice()[usize::from(pair.rx)].rx,
    }
}
