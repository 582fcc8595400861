//! Marking: each entry gets its way once its parent's entry has one, in rounds until a round finds none.

ghost use Rattle.std.specs.Prelude.{◌≡◌, ◌≢◌, ℕ, ◌≤◌, ◌<◌, None, Some, length};
ghost use Rattle.irt_base.specs.declared.blocks.Entry.{Entry};
ghost use Rattle.irt_base.specs.declared.plants.Demand.{Demand};
ghost use Rattle.plan_rules.specs.Tree.{demand_of};
ghost use Rattle.irt_window.specs.Plans.{IsNet, Stands};
ghost use Rattle.irt_window.specs.Marks.{AreMarks, way_in, IsNewWay, IsStep, IsStuckAt, IsDeviceStuck, AreStuck};

use crate::behind::{own_way, way_behind};
use crate::links::parent_of;
use crate::marks::{Marks, set_way, way_at};
use crate::net::{Net, demand_at, entry_of};
use irt_base::blocks::Entry;
use irt_base::numbers::DevId;
use plan_rules::way::Way;

/// Finds all ways that there are.
pub fn mark_all(net: &Net<'_>, marks: &mut Marks)
    requires net { IsNet net.now }
    requires marks { AreMarks net.now marks.old }
    ensures marks { AreMarks net.now marks.new }
    ensures all { AreStuck net.now marks.new }
{
    while mark_round(net, marks) {}
}

/// Finds ways at all devices, and says whether it found any.
fn mark_round(net: &Net<'_>, marks: &mut Marks) -> bool
    requires net { IsNet net.now }
    requires marks { AreMarks net.now marks.old }
    ensures marks { AreMarks net.now marks.new }
    ensures step { IsStep (AreStuck net.now) marks.old marks.new result }
{
    let mut found = false;
    for device in 0..net.bundles.len() {
        found |= mark_device(net, marks, DevId(device as u8));
    }
    found
}

/// Finds ways at a device, and says whether it found any.
fn mark_device(net: &Net<'_>, marks: &mut Marks, device: DevId) -> bool
    requires net { IsNet net.now }
    requires marks { AreMarks net.now marks.old }
    requires there { device.0 < length net.now.bundles.now }
    ensures marks { AreMarks net.now marks.new }
    ensures step { IsStep (IsDeviceStuck net.now device.0) marks.old marks.new result }
{
    let mut found = false;
    let bundle = &net.bundles[usize::from(device.0)];
    for place in 0..bundle.frames.entries.len() {
        found |= mark_entry(net, marks, device, place);
    }
    found
}

/// Finds the way of an entry that has none, and says whether it did.
fn mark_entry(net: &Net<'_>, marks: &mut Marks, device: DevId, place: usize) -> bool
    requires net { IsNet net.now }
    requires marks { AreMarks net.now marks.old }
    requires there { (e : Entry) × Stands net.now.bundles.now device.0 place e }
    ensures marks { AreMarks net.now marks.new }
    ensures step { IsStep (λ m. IsStuckAt net.now m device.0 place) marks.old marks.new result }
{
    if way_at(marks, device, place).is_some() {
        return false;
    }
    match new_way(net, marks, device, place) {
        None => false,
        Some(way) => {
            set_way(marks, device, place, way);
            true
        }
    }
}

/// The way of an entry, where its device provides the frame or its parent's entry has a way.
fn new_way(net: &Net<'_>, marks: &Marks, device: DevId, place: usize) -> Option<Way>
    requires net { IsNet net.now }
    requires marks { AreMarks net.now marks.now }
    requires there { (e : Entry) × Stands net.now.bundles.now device.0 place e }
    ensures { (e : Entry) → Stands net.now.bundles.now device.0 place e → IsNewWay net.now marks.now device.0 e result }
{
    let entry = entry_of(net, device, place);
    match demand_at(net, entry.frame) {
        None => None,
        Some(demand) => {
            if demand.provider.0 == device.0 {
                Some(own_way(device, entry))
            } else {
                way_from(net, marks, device, entry)
            }
        }
    }
}

/// The way of an entry from its parent's.
fn way_from(net: &Net<'_>, marks: &Marks, device: DevId, entry: Entry) -> Option<Way>
    requires net { IsNet net.now }
    requires marks { AreMarks net.now marks.now }
    requires there { (n : ℕ) × Stands net.now.bundles.now device.0 n entry }
    requires forwarded { (demand : Demand) → demand_of net.now.plant.now entry.frame.0 ≡ Some demand → device.0 ≢ demand.provider.0 }
    ensures { IsNewWay net.now marks.now device.0 entry result }
{
    match parent_of(net, device, entry) {
        None => None,
        Some(parent) => match way_at(marks, parent.device, parent.place) {
            None => None,
            Some(way) => Some(way_behind(net, device, entry, parent, way)),
        },
    }
}
