//! Slots of a link direction.

ghost use Rattle.std.specs.Prelude.{◌≡◌, ◌+◌, ◌^◌, ◌<◌, ◌↔◌, IsTrue};
ghost use Rattle.gap_table.specs.Slots.{slack, EndsBefore};

use irt_base::numbers::DevId;

/// Greatest end of a slot in a table, and greatest guard, in ns.
pub const MAX_END: u32 = 0x4000_0000;

/// When a frame may be on a link direction, in the local time of its anchor.
#[derive(Clone, Copy, Debug, PartialEq, Eq)]
pub struct Slot {
    /// The earliest start after the cycle's begin, in ns.
    pub lo: u32,
    /// The latest end after the cycle's begin, the gap behind the frame included, in ns.
    pub end: u32,
    /// The device by whose clock the frame is sent.
    pub anchor: DevId,
}

/// What has to lie between two slots, in ns: with one anchor nothing, else the guard.
pub(crate) fn slack(guard: u32, a: &Slot, b: &Slot) -> u32
    ensures { result ≡ slack guard a.now b.now }
{
    if a.anchor.0 == b.anchor.0 { 0 } else { guard }
}

pub(crate) fn ends_before(guard: u32, a: &Slot, b: &Slot) -> bool
    requires { a.now.end + guard < 2 ^ 32 }
    ensures { IsTrue result ↔ EndsBefore guard a.now b.now }
{
    a.end + slack(guard, a, b) <= b.lo
}
