//! The rule over all pairs.

ghost use Rattle.std.specs.Prelude.{◌≤◌, ◌<◌, ◌+◌, ℕ, length, slice_index_or};
ghost use Rattle.std.specs.List.{HoldsAt};
ghost use Rattle.window_sweep.specs.Slots.{AreSendSlots};
ghost use Rattle.window_sweep.specs.Clashes.{Clash, IsFirstClash};
ghost use Rattle.window_sweep.specs.declared.slot.SendSlot.{SendSlot};

use crate::slot::{SendSlot, clash};
use irt_base::limits::MAX_WINDOW;
use irt_base::numbers::FrameId;

/// The least pair of frames that share a cycle and don't keep clear of each other on the link direction.
/// It takes no memory, and a time that grows with the square of the number of slots.
pub fn first_clash_of_pairs(window: u32, slots: &[SendSlot]) -> Option<(FrameId, FrameId)>
    requires within { window ≤ MAX_WINDOW }
    requires valid { AreSendSlots slots.now }
    ensures { IsFirstClash window slots.now result }
{
    for (place, slot) in slots.iter().enumerate() {
        let other = clash_after(window, slots, place);
        if other < slots.len() {
            return Some((slot.frame, slots[other].frame));
        }
    }
    None
}

// The first place after a slot at which one clashes with it, or the end.
fn clash_after(window: u32, slots: &[SendSlot], place: usize) -> usize
    requires within { window ≤ MAX_WINDOW }
    requires valid { AreSendSlots slots.now }
    requires there { place < length slots.now }
    ensures after { place < result }
    ensures inside { result ≤ length slots.now }
    ensures before { (k : ℕ) (d : SendSlot) → place < k → k < result → ¬ Clash window (slice_index_or slots.now place d) (slice_index_or slots.now k d) }
    ensures found { result < length slots.now → (d : SendSlot) → Clash window (slice_index_or slots.now place d) (slice_index_or slots.now result d) }
{
    for other in place + 1..slots.len() {
        if clash(window, &slots[place], &slots[other]) {
            return other;
        }
    }
    slots.len()
}
