//! The rule by neighbours.

ghost use Rattle.std.specs.Prelude.{◌≡◌, ◌≤◌, ◌<◌, ◌↔◌, ℕ, length, Option, All, IfOk, IfSome, IsTrue, MatchBool, true, false};
ghost use Rattle.irt_base.specs.declared.limits.TheConstants.{PHASES};
ghost use Rattle.irt_base.specs.declared.numbers.FrameId.{FrameId};
ghost use Rattle.window_sweep.specs.Slots.{AreSendSlots, IsSendSlot};
ghost use Rattle.window_sweep.specs.Clashes.{AreClear, IsFirstClash};
ghost use Rattle.window_sweep.specs.Steps.{follows, steps};

use crate::pairs::first_clash_of_pairs;
use crate::slot::{SendSlot, is_before, is_due};
use irt_base::limits::{MAX_WINDOW, PHASES};
use irt_base::memory::NoMemory;
use irt_base::numbers::FrameId;
use std::alloc::Global;

/// The least pair of frames that share a cycle and don't keep clear of each other on the link direction.
///
/// `window` is the plant's, in ns: slots of one anchor may touch, those of two keep the guard between
/// them. `None` comes exactly where the rule holds, after a sort and 16 sweeps. Any call may answer
/// that memory ran out.
pub fn first_clash(
    alloc: Global,
    window: u32,
    slots: &[SendSlot],
) -> Result<Option<(FrameId, FrameId)>, NoMemory>
    requires within { window ≤ MAX_WINDOW }
    requires valid { AreSendSlots slots.now }
    ensures answer { IfOk result (IsFirstClash window slots.now) }
    ensures only { (o : Option (FrameId × FrameId)) → IsFirstClash window slots.now o → IfOk result (λ r. r ≡ o) }
{
    if are_clear(alloc, window, slots)? {
        return Ok(None);
    }
    Ok(first_clash_of_pairs(window, slots))
}

fn are_clear(alloc: Global, window: u32, slots: &[SendSlot]) -> Result<bool, NoMemory>
    requires within { window ≤ MAX_WINDOW }
    requires valid { AreSendSlots slots.now }
    ensures { IfOk result (λ b. IsTrue b ↔ AreClear window slots.now) }
{
    let mut sorted = Vec::from_slice(alloc, slots)?;
    sorted.sort_unstable_by_key(|slot| slot.lo);
    Ok(phases_are_clear(window, sorted.as_slice()))
}

fn phases_are_clear(window: u32, sorted: &[SendSlot]) -> bool
    requires within { window ≤ MAX_WINDOW }
    requires valid { All IsSendSlot sorted.now }
    ensures { MatchBool result ((k : ℕ) → k < PHASES → steps window k None sorted.now ≡ true) ((k : ℕ) × (k < PHASES) × (steps window k None sorted.now ≡ false)) }
{
    for k in 0..u32::from(PHASES) {
        if !phase_is_clear(window, sorted, k) {
            return false;
        }
    }
    true
}

// Whether a slot comes after the last due one, if there is one.
fn follows(window: u32, last: Option<SendSlot>, slot: &SendSlot) -> bool
    requires within { window ≤ MAX_WINDOW }
    requires valid { IfSome last IsSendSlot }
    ensures { result ≡ follows window last slot.now }
{
    match last {
        None => true,
        Some(before) => is_before(window, &before, slot),
    }
}

fn phase_is_clear(window: u32, sorted: &[SendSlot], k: u32) -> bool
    requires within { window ≤ MAX_WINDOW }
    requires valid { All IsSendSlot sorted.now }
    ensures { result ≡ steps window k None sorted.now }
{
    let mut last = None;
    for slot in sorted {
        if is_due(k, slot) {
            if !follows(window, last, slot) {
                return false;
            }
            last = Some(*slot);
        }
    }
    true
}
