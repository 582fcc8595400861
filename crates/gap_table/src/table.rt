//! The slots of a link direction in one phase, in the order of time.

ghost use Rattle.std.specs.Prelude.{◌≡◌, ◌+◌, ◌^◌, ◌≤◌, ◌<◌, [], length, All, OnOk, OnErr, IfNone, IfSome};
ghost use Rattle.std.specs.List.{AllWithin};
ghost use Rattle.gap_table.specs.Slots.{IsSlot, IsClear, AreOrdered, IsInserted, IsBlocker};
ghost use Rattle.gap_table.specs.declared.slot.Slot.{Slot};

use crate::slot::{MAX_END, Slot, ends_before, slack};
use irt_base::memory::NoMemory;
use std::alloc::Global;
use std::marker::Model;

/// Slots that don't overlap, in the order of time.
#[derive(Drop)]
pub struct GapTable {
    slots: Vec<Slot>,
}

impl Model for GapTable {
    ghost use Rattle.std.specs.Prelude.{List};
    ghost use Rattle.gap_table.specs.Slots.{AreOrdered};
    ghost use Rattle.gap_table.specs.declared.slot.Slot.{Slot};

    ghost Value = { List Slot };

    ghost view = { λ s. s.slots.items };

    ghost invariant = { λ s. AreOrdered s.slots.items };
}

impl GapTable {
    /// A table without slots. It takes no memory.
    pub fn new(alloc: Global) -> GapTable
        ensures { result ≡ [] }
    {
        GapTable {
            slots: Vec::new(alloc),
        }
    }

    /// Adds a slot that overlaps none, at its place in the order. Want of memory leaves the table as it was.
    pub fn insert(&mut self, slot: Slot) -> Result<(), NoMemory>
        requires valid { IsSlot slot }
        requires apart { All (IsClear 0 slot) self.old }
        ensures ok { OnOk result (IsInserted slot self.old self.new) }
        ensures err { OnErr result (self.new ≡ self.old) }
    {
        let place = count_before(self.slots.as_slice(), slot.lo);
        self.slots.insert(place, slot)?;
        Ok(())
    }

    /// When the direction is free behind a slot that blocks the candidate, in ns. `None` comes exactly
    /// where none does. It takes the time of a search by halves, and of the slots within the guard.
    pub fn blocker(&self, guard: u32, candidate: &Slot) -> Option<u32>
        requires guard { guard ≤ MAX_END }
        requires proper { candidate.now.lo < candidate.now.end }
        requires small { candidate.now.end + guard < 2 ^ 32 }
        ensures clear { IfNone result (All (IsClear guard candidate.now) self.now) }
        ensures blocked { IfSome result (IsBlocker guard candidate.now self.now) }
    {
        let slots = self.slots.as_slice();
        let first = count_ended(slots, guard, candidate.lo);
        blocker_from(slots, first, guard, candidate)
    }
}

// How many slots begin before a time.
fn count_before(slots: &[Slot], time: u32) -> usize
    requires { AreOrdered slots.now }
    ensures inside { result ≤ length slots.now }
    ensures before { AllWithin (λ s. s.lo < time) slots.now 0 result }
    ensures from { AllWithin (λ s. time ≤ s.lo) slots.now result (length slots.now) }
{
    slots.partition_point(|slot| slot.lo < time)
}

// How many slots have ended a guard before a time.
fn count_ended(slots: &[Slot], guard: u32, time: u32) -> usize
    requires ordered { AreOrdered slots.now }
    requires guard { guard ≤ MAX_END }
    ensures inside { result ≤ length slots.now }
    ensures ended { AllWithin (λ s. s.end + guard ≤ time) slots.now 0 result }
{
    slots.partition_point(|slot| slot.end <= time.saturating_sub(guard))
}

// The same from a slot on, where those before it are clear.
fn blocker_from(slots: &[Slot], first: usize, guard: u32, candidate: &Slot) -> Option<u32>
    requires ordered { AreOrdered slots.now }
    requires inside { first ≤ length slots.now }
    requires before { AllWithin (IsClear guard candidate.now) slots.now 0 first }
    requires guard { guard ≤ MAX_END }
    requires proper { candidate.now.lo < candidate.now.end }
    requires small { candidate.now.end + guard < 2 ^ 32 }
    ensures clear { IfNone result (All (IsClear guard candidate.now) slots.now) }
    ensures blocked { IfSome result (IsBlocker guard candidate.now slots.now) }
{
    for at in first..slots.len() {
        let slot = slots[at];
        if candidate.end + guard <= slot.lo {
            return None;
        }
        if !ends_before(guard, candidate, &slot) && !ends_before(guard, &slot, candidate) {
            return Some(slot.end + slack(guard, &slot, candidate));
        }
    }
    None
}
