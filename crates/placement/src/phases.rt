//! The offsets of a frame in each phase, and the phase in which it ends first.

ghost use Rattle.std.specs.Prelude.{◌≡◌, ◌+◌, ◌*◌, ◌<◌, ◌≤◌, ℕ, List, IfSome, IfNone, length};
ghost use Rattle.irt_base.specs.Valid.{IsRate, IsRatio};
ghost use Rattle.placement.specs.Layouts.{AreLimits, AreSmall, IsLayout, IsAfter, ready_after};
ghost use Rattle.placement.specs.Placings.{ArePlaced, ArePlacedBelow, IsEnd, IsBestBelow, HasNoneBelow, IsAnswerBelow, IsPhaseAnswer, earlier};

use crate::gaps::Gaps;
use crate::layout::{After, Layout, Limits, MAX_TIME, Offsets, Rate};
use crate::search::{end_of, least_offset};
use irt_base::limits::MAX_DEVICES;

/// Where a frame is placed.
#[derive(Clone, Copy)]
pub struct Placing {
    /// From 1.
    pub phase: u16,
    pub offsets: Offsets,
    /// The greatest end of a sending in the cycle of its device, in ns.
    pub end: u32,
}

/// The placing in the phase, of `ratio` ones, with the least end, and of equal ones in the least. `None` comes
/// exactly where no phase has offsets.
pub fn best_placing(gaps: &Gaps, limits: Limits, layout: &Layout, ratio: u16) -> Option<Placing>
    requires limits { AreLimits limits }
    requires layout { IsLayout layout.now }
    requires some { 1 ≤ length layout.now.anchors }
    requires ratio { IsRatio ratio }
    ensures found { IfSome result (IsBestBelow limits ratio layout.now gaps.now (ratio + 1)) }
    ensures none { IfNone result (HasNoneBelow limits ratio layout.now gaps.now (ratio + 1)) }
{
    let mut best = None;
    for phase in 1..ratio + 1 {
        let next = placing_in(gaps, limits, layout, Rate { ratio, phase });
        best = earlier(best, next);
    }
    best
}

// The first one, unless the second one ends before it.
fn earlier(first: Option<Placing>, second: Option<Placing>) -> Option<Placing>
    ensures { result ≡ earlier first second }
{
    match (first, second) {
        (None, second) => second,
        (first, None) => first,
        (Some(first), Some(second)) => Some(if second.end < first.end {
            second
        } else {
            first
        }),
    }
}

fn placing_in(gaps: &Gaps, limits: Limits, layout: &Layout, rate: Rate) -> Option<Placing>
    requires limits { AreLimits limits }
    requires layout { IsLayout layout.now }
    requires some { 1 ≤ length layout.now.anchors }
    requires rate { IsRate rate.ratio rate.phase }
    ensures { IsPhaseAnswer limits rate layout.now gaps.now result }
{
    let offsets = placed_offsets(gaps, limits, layout, rate)?;
    Some(Placing {
        phase: rate.phase,
        offsets,
        end: last_end(limits, layout, &offsets),
    })
}

/// The least offset of each anchor in turn. `None` comes exactly where one has none.
pub fn placed_offsets(gaps: &Gaps, limits: Limits, layout: &Layout, rate: Rate) -> Option<Offsets>
    requires limits { AreLimits limits }
    requires layout { IsLayout layout.now }
    requires rate { IsRate rate.ratio rate.phase }
    ensures found { IfSome result (ArePlaced limits rate layout.now gaps.now) }
    ensures small { IfSome result AreSmall }
    ensures none { IfNone result ((offsets : List ℕ) → ¬ ArePlaced limits rate layout.now gaps.now offsets) }
{
    let mut offsets = [0; MAX_DEVICES];
    for anchor in layout.anchors.as_slice() {
        let ready = ready_after(&offsets, anchor.after);
        let offset = least_offset(gaps, limits, layout, rate, anchor.device, ready)?;
        offsets[usize::from(anchor.device.0)] = offset;
    }
    Some(offsets)
}

fn ready_after(offsets: &Offsets, after: Option<After>) -> u32
    requires small { AreSmall offsets.now }
    requires after { IfSome after IsAfter }
    ensures { result ≡ ready_after offsets.now after }
{
    match after {
        None => 0,
        Some(after) => offsets[usize::from(after.anchor.0)] + after.gap,
    }
}

/// The greatest end of a sending in the cycle of its device, in ns.
pub fn last_end(limits: Limits, layout: &Layout, offsets: &Offsets) -> u32
    requires limits { AreLimits limits }
    requires layout { IsLayout layout.now }
    requires some { 1 ≤ length layout.now.sendings }
    requires small { AreSmall offsets.now }
    ensures { IsEnd limits layout.now offsets.now result }
{
    let mut end = 0;
    for sending in layout.sendings.as_slice() {
        let offset = offsets[usize::from(sending.anchor.0)];
        end = end.max(end_of(limits, layout.wire, *sending, offset));
    }
    end
}
