//! The least offset at which all fits that hangs on an anchor.

ghost use Rattle.std.specs.Prelude.{◌≡◌, ◌↔◌, ◌+◌, ◌*◌, ◌<◌, ◌≤◌, ℕ, IsTrue, IfSome, IfNone, All, Contains};
ghost use Rattle.irt_base.specs.Valid.{IsRate};
ghost use Rattle.irt_base.specs.declared.limits.TheConstants.{PHASES};
ghost use Rattle.fit_rules.specs.Fit.{IsLeastFrom};
ghost use Rattle.gap_table.specs.Slots.{IsClear};
ghost use Rattle.placement.specs.Layouts.{AreLimits, IsLayout, IsValidSending, slot_of, end_of};
ghost use Rattle.placement.specs.Tables.{table_at};
ghost use Rattle.placement.specs.Placings.{IsFree, IsOpen};
ghost use Rattle.placement.specs.Searches.{IsBehindTable, IsBehind, IsBehindAll, EndInRed};
ghost use Rattle.placement.specs.declared.layout.Sending.{Sending};

use crate::gaps::Gaps;
use crate::layout::{Layout, Limits, MAX_TIME, Rate, Sending};
use gap_table::slot::Slot;
use gap_table::table::GapTable;
use irt_base::cycles::due;
use irt_base::limits::PHASES;
use irt_base::numbers::DevId;

/// An offset above all that a search comes to, in ns.
pub const MAX_OFFSET: u32 = 0x8000_0000;

/// The least offset of an anchor, from `ready` ns on, at which all sendings that hang on it end by the red limit
/// and meet no slot of a phase in which the frame is due. `None` comes exactly where there is none.
pub fn least_offset(
    gaps: &Gaps,
    limits: Limits,
    layout: &Layout,
    rate: Rate,
    anchor: DevId,
    ready: u32,
) -> Option<u32>
    requires limits { AreLimits limits }
    requires layout { IsLayout layout.now }
    requires rate { IsRate rate.ratio rate.phase }
    requires ready { ready ≤ MAX_OFFSET }
    ensures found { IfSome result (IsLeastFrom (IsOpen limits rate layout.now gaps.now anchor.0) ready) }
    ensures none { IfNone result ((x : ℕ) → ready ≤ x → ¬ IsOpen limits rate layout.now gaps.now anchor.0 x) }
{
    let mut offset = ready;
    while end_in_red(limits, layout, anchor, offset) {
        let free = behind_all(gaps, limits, layout, rate, anchor, offset);
        if free == offset {
            return Some(offset);
        }
        offset = free;
    }
    None
}

// Whether all sendings that hang on an anchor end by the red limit.
fn end_in_red(limits: Limits, layout: &Layout, anchor: DevId, offset: u32) -> bool
    requires limits { AreLimits limits }
    requires layout { IsLayout layout.now }
    requires small { offset ≤ MAX_OFFSET }
    ensures { IsTrue result ↔ EndInRed limits layout.now anchor.0 offset }
{
    for sending in layout.sendings.as_slice() {
        if sending.anchor.0 == anchor.0
            && limits.red_max < end_of(limits, layout.wire, *sending, offset)
        {
            return false;
        }
    }
    true
}

/// When a sending surely is over in its device's own cycle, in ns.
pub fn end_of(limits: Limits, wire: u32, sending: Sending, offset: u32) -> u32
    requires limits { AreLimits limits }
    requires wire { wire ≤ MAX_TIME }
    requires sending { IsValidSending sending }
    requires small { offset ≤ MAX_OFFSET }
    ensures { result ≡ end_of limits wire sending offset }
{
    let end = offset + sending.greatest + wire;
    if sending.device.0 == sending.anchor.0 {
        end
    } else {
        end + limits.guard
    }
}

// A later offset, before which nothing is open. Where it is the same, no slot is in the way.
fn behind_all(
    gaps: &Gaps,
    limits: Limits,
    layout: &Layout,
    rate: Rate,
    anchor: DevId,
    offset: u32,
) -> u32
    requires limits { AreLimits limits }
    requires layout { IsLayout layout.now }
    requires rate { IsRate rate.ratio rate.phase }
    requires small { offset ≤ MAX_OFFSET }
    ensures { IsBehindAll limits rate layout.now gaps.now anchor.0 offset result }
{
    let mut at = offset;
    for sending in layout.sendings.as_slice() {
        if sending.anchor.0 == anchor.0 {
            at = behind_slots(gaps, limits, rate, layout.wire, *sending, at);
        }
    }
    at
}

fn behind_slots(
    gaps: &Gaps,
    limits: Limits,
    rate: Rate,
    wire: u32,
    sending: Sending,
    offset: u32,
) -> u32
    requires limits { AreLimits limits }
    requires rate { IsRate rate.ratio rate.phase }
    requires some { 1 ≤ wire }
    requires wire { wire ≤ MAX_TIME }
    requires sending { IsValidSending sending }
    requires small { offset ≤ MAX_OFFSET }
    ensures { IsBehind limits rate wire gaps.now sending offset result }
{
    let mut at = offset;
    for k in 0..PHASES {
        if due(u32::from(k), rate.ratio, rate.phase) {
            at = behind_table(
                gaps.table(sending.device, sending.port, k),
                limits.guard,
                wire,
                sending,
                at,
            );
        }
    }
    at
}

fn behind_table(table: &GapTable, guard: u32, wire: u32, sending: Sending, offset: u32) -> u32
    requires guard { guard ≤ MAX_TIME }
    requires some { 1 ≤ wire }
    requires wire { wire ≤ MAX_TIME }
    requires sending { IsValidSending sending }
    requires small { offset ≤ MAX_OFFSET }
    ensures { IsBehindTable guard wire table.now sending offset result }
{
    match table.blocker(guard, &slot_of(wire, sending, offset)) {
        None => offset,
        Some(free) => free - sending.least,
    }
}

/// When a sending may be on its link.
pub fn slot_of(wire: u32, sending: Sending, offset: u32) -> Slot
    requires wire { wire ≤ MAX_TIME }
    requires sending { IsValidSending sending }
    requires small { offset ≤ MAX_OFFSET }
    ensures { result ≡ slot_of wire sending offset }
{
    Slot {
        lo: offset + sending.least,
        end: offset + sending.greatest + wire,
        anchor: sending.anchor,
    }
}
