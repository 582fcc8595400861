//! Slots of a placed frame.

ghost use Rattle.std.specs.Prelude.{◌≡◌, ◌+◌, ◌*◌, ◌≤◌, ◌<◌, ℕ, All, OnOk};
ghost use Rattle.irt_base.specs.Valid.{IsRate};
ghost use Rattle.irt_base.specs.Cycle.{IsDue};
ghost use Rattle.irt_base.specs.declared.limits.TheConstants.{PHASES};
ghost use Rattle.gap_table.specs.Slots.{IsSlot, IsClear};
ghost use Rattle.placement.specs.Layouts.{AreSmall, IsLayout, IsValidSending};
ghost use Rattle.placement.specs.Tables.{table_at, Adds};
ghost use Rattle.placement.specs.Records.{AreClearSlots, IsDueSlot, IsFrameSlot};

use crate::gaps::Gaps;
use crate::layout::{Layout, Offsets, Rate, Sending};
use crate::search::slot_of;
use gap_table::slot::Slot;
use irt_base::cycles::due;
use irt_base::limits::PHASES;
use irt_base::memory::NoMemory;

/// Adds the slots of a placed frame, in each phase in which it is due. Want of memory leaves some of them out.
pub fn add_frame(
    gaps: &mut Gaps,
    layout: &Layout,
    rate: Rate,
    offsets: &Offsets,
) -> Result<(), NoMemory>
    requires layout { IsLayout layout.now }
    requires rate { IsRate rate.ratio rate.phase }
    requires small { AreSmall offsets.now }
    requires clear { AreClearSlots rate layout.now offsets.now gaps.old }
    ensures { OnOk result (Adds (IsFrameSlot rate layout.now offsets.now) gaps.old gaps.new) }
{
    for sending in layout.sendings.as_slice() {
        let offset = offsets[usize::from(sending.anchor.0)];
        let slot = slot_of(layout.wire, *sending, offset);
        add_sending(gaps, rate, *sending, slot)?;
    }
    Ok(())
}

fn add_sending(gaps: &mut Gaps, rate: Rate, sending: Sending, slot: Slot) -> Result<(), NoMemory>
    requires rate { IsRate rate.ratio rate.phase }
    requires sending { IsValidSending sending }
    requires slot { IsSlot slot }
    requires clear { (k : ℕ) → k < PHASES → IsDue k rate.ratio rate.phase → All (IsClear 0 slot) (table_at gaps.old sending.device.0 sending.port.0 k) }
    ensures { OnOk result (Adds (IsDueSlot rate sending slot PHASES) gaps.old gaps.new) }
{
    for k in 0..PHASES {
        if due(u32::from(k), rate.ratio, rate.phase) {
            gaps.insert(sending.device, sending.port, k, slot)?;
        }
    }
    Ok(())
}
