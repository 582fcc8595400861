//! Whether slots are valid.

ghost use Rattle.std.specs.Prelude.{◌<◌, ◌↔◌, IsTrue, All, AllPairs};
ghost use Rattle.irt_base.specs.Valid.{IsRate};
ghost use Rattle.window_sweep.specs.Slots.{AreSendSlots, IsSendSlot};
ghost use Rattle.window_sweep.specs.declared.slot.SendSlot.{SendSlot};

use crate::slot::{MAX_END, SendSlot};

/// Whether each slot is valid, and their frames ascend strictly.
pub fn are_send_slots(slots: &[SendSlot]) -> bool
    ensures { IsTrue result ↔ AreSendSlots slots.now }
{
    all_valid(slots) && ascend(slots)
}

fn all_valid(slots: &[SendSlot]) -> bool
    ensures { IsTrue result ↔ All IsSendSlot slots.now }
{
    for slot in slots {
        if !is_send_slot(slot) {
            return false;
        }
    }
    true
}

fn is_send_slot(slot: &SendSlot) -> bool
    ensures { IsTrue result ↔ IsSendSlot slot.now }
{
    slot.lo < slot.end && slot.end <= MAX_END && is_rate(slot.ratio, slot.phase)
}

fn is_rate(ratio: u16, phase: u16) -> bool
    ensures { IsTrue result ↔ IsRate ratio phase }
{
    matches!(ratio, 1 | 2 | 4 | 8 | 16) && 1 <= phase && phase <= ratio
}

fn ascend(slots: &[SendSlot]) -> bool
    ensures { IsTrue result ↔ AllPairs (λ (a b : SendSlot). a.frame.0 < b.frame.0) slots.now }
{
    for place in 1..slots.len() {
        if slots[place - 1].frame.0 >= slots[place].frame.0 {
            return false;
        }
    }
    true
}
