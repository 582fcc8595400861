//! Slots of a link direction.

ghost use Rattle.std.specs.Prelude.{◌≡◌, ◌+◌, ◌≤◌, ◌↔◌, IsTrue};
ghost use Rattle.window_sweep.specs.Slots.{IsSendSlot, slack, IsClear};
ghost use Rattle.window_sweep.specs.Clashes.{Clash};
ghost use Rattle.window_sweep.specs.Steps.{is_due, is_before};

use irt_base::cycles::{due, guard, share};
use irt_base::limits::MAX_WINDOW;
use irt_base::numbers::{DevId, FrameId};

/// Greatest end of a slot, in ns.
pub const MAX_END: u64 = 0x0100_0000_0000;

/// When a frame may be on a link direction, in the local time of its anchor.
#[derive(Clone, Copy, Debug, PartialEq, Eq)]
pub struct SendSlot {
    /// The earliest start after the cycle's begin, in ns.
    pub lo: u64,
    /// The latest end after the cycle's begin, the gap behind the frame included, in ns.
    pub end: u64,
    /// The device by whose clock the frame is sent.
    pub anchor: DevId,
    /// The frame.
    pub frame: FrameId,
    /// Its reduction ratio, in cycles.
    pub ratio: u16,
    /// Its phase, from 1.
    pub phase: u16,
}

fn slack(window: u32, a: &SendSlot, b: &SendSlot) -> u32
    requires { window ≤ MAX_WINDOW }
    ensures { result ≡ slack window a.now b.now }
{
    if a.anchor.0 == b.anchor.0 {
        0
    } else {
        guard(window)
    }
}

pub(crate) fn is_before(window: u32, a: &SendSlot, b: &SendSlot) -> bool
    requires within { window ≤ MAX_WINDOW }
    requires valid { IsSendSlot a.now }
    ensures { result ≡ is_before window a.now b.now }
{
    a.end + u64::from(slack(window, a, b)) <= b.lo
}

pub(crate) fn is_due(k: u32, slot: &SendSlot) -> bool
    requires { IsSendSlot slot.now }
    ensures { result ≡ is_due k slot.now }
{
    due(k, slot.ratio, slot.phase)
}

pub(crate) fn clash(window: u32, a: &SendSlot, b: &SendSlot) -> bool
    requires within { window ≤ MAX_WINDOW }
    requires first { IsSendSlot a.now }
    requires second { IsSendSlot b.now }
    ensures { IsTrue result ↔ Clash window a.now b.now }
{
    share(a.ratio, a.phase, b.ratio, b.phase)
        && !is_before(window, a, b)
        && !is_before(window, b, a)
}
