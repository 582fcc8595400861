//! Rule V2 at a device and frame, and where it first fails.

ghost use Rattle.std.specs.Prelude.{◌≡◌, ◌↔◌, ◌⊎◌, Some, IsTrue, IsBitSet};
ghost use Rattle.irt_base.specs.declared.blocks.Entry.{Entry};
ghost use Rattle.plan_rules.specs.Tree.{demand_of, Consumes, IsReached, IsInTree};
ghost use Rattle.plan_rules.specs.Places.{IsScan};
ghost use Rattle.plan_rules.specs.Frames.{IsTreeAt};
ghost use Rattle.irt_window.specs.Plans.{IsNet, setup_in, Stands};
ghost use Rattle.irt_window.specs.Marks.{AreMarks, AreStuck};
ghost use Rattle.irt_window.specs.Rules.{IsWanted, HasTree, IsSent, IsOwn, IsLinked, IsPlaced, IsLeastFrame};

use crate::demands::consumes;
use crate::links::{all_received, parent_of};
use crate::marks::{Marks, way_at};
use crate::net::{Net, demand_at, entry_at, entry_of};
use crate::ports::has_bit;
use irt_base::blocks::Entry;
use irt_base::limits::{MAX_FRAME, MIN_FRAME};
use irt_base::numbers::{DevId, FrameId};
use irt_base::plants::Demand;
use plan_rules::place::Place;

/// The least device and frame at which rule V2 fails.
pub fn first_break(net: &Net<'_>, marks: &Marks) -> Option<Place>
    requires net { IsNet net.now }
    requires marks { AreMarks net.now marks.now }
    requires all { AreStuck net.now marks.now }
    ensures { IsScan (IsTreeAt net.now.plant.now net.now.bundles.now) result }
{
    for device in 0..net.bundles.len() {
        let device = DevId(device as u8);
        if let Some(frame) = device_break(net, marks, device) {
            return Some(Place::new(device, 0, frame));
        }
    }
    None
}

/// The least frame for which rule V2 fails at a device.
fn device_break(net: &Net<'_>, marks: &Marks, device: DevId) -> Option<u16>
    requires net { IsNet net.now }
    requires marks { AreMarks net.now marks.now }
    requires all { AreStuck net.now marks.now }
    ensures { IsLeastFrame (setup_in net.now) device.0 result }
{
    for frame in MIN_FRAME..MAX_FRAME + 1 {
        if !holds_at(net, marks, device, FrameId(frame)) {
            return Some(frame);
        }
    }
    None
}

/// Whether rule V2 holds at a device and frame.
fn holds_at(net: &Net<'_>, marks: &Marks, device: DevId, frame: FrameId) -> bool
    requires net { IsNet net.now }
    requires marks { AreMarks net.now marks.now }
    requires all { AreStuck net.now marks.now }
    ensures { IsTrue result ↔ IsInTree (setup_in net.now) device.0 frame.0 }
{
    match entry_at(net, device, frame) {
        None => !is_wanted(net, device, frame),
        Some(place) => has_tree(net, marks, device, place),
    }
}

/// Whether a demand wants the device to have an entry of the frame.
fn is_wanted(net: &Net<'_>, device: DevId, frame: FrameId) -> bool
    requires net { IsNet net.now }
    ensures { IsTrue result ↔ IsWanted (setup_in net.now) device.0 frame.0 }
{
    match demand_at(net, frame) {
        None => false,
        Some(demand) => takes_part(demand, device),
    }
}

fn takes_part(demand: &Demand, device: DevId) -> bool
    ensures { IsTrue result ↔ ((device.0 ≡ demand.now.provider.0) ⊎ Consumes demand.now device.0) }
{
    device.0 == demand.provider.0 || consumes(demand, device)
}

/// Whether the entry at a place is as the tree of its demand asks.
fn has_tree(net: &Net<'_>, marks: &Marks, device: DevId, place: usize) -> bool
    requires net { IsNet net.now }
    requires marks { AreMarks net.now marks.now }
    requires all { AreStuck net.now marks.now }
    requires there { (e : Entry) × Stands net.now.bundles.now device.0 place e }
    ensures { (e : Entry) → Stands net.now.bundles.now device.0 place e → (IsTrue result ↔ HasTree (setup_in net.now) device.0 e) }
{
    let entry = entry_of(net, device, place);
    match demand_at(net, entry.frame) {
        None => false,
        Some(demand) => {
            is_placed(net, demand, device, entry) && is_reached(net, marks, demand, device, place)
        }
    }
}

/// Whether the entry is as the tree of its demand asks, but for the way to the provider.
fn is_placed(net: &Net<'_>, demand: &Demand, device: DevId, entry: Entry) -> bool
    requires net { IsNet net.now }
    ensures { IsTrue result ↔ IsPlaced (setup_in net.now) demand.now device.0 entry }
{
    is_own(demand, device, entry) && is_linked(net, device, entry)
}

/// Whether the entry suits the device's part in the demand.
fn is_own(demand: &Demand, device: DevId, entry: Entry) -> bool
    ensures { IsTrue result ↔ IsOwn demand.now device.0 entry }
{
    is_provided(demand, device, entry) && is_consumed(demand, device, entry) && entry.tx != 0
}

/// Whether the entry suits those at the other ends of its links.
fn is_linked(net: &Net<'_>, device: DevId, entry: Entry) -> bool
    requires net { IsNet net.now }
    ensures { IsTrue result ↔ IsLinked (setup_in net.now) device.0 entry }
{
    all_received(net, device, entry) && is_sent(net, device, entry)
}

/// Whether the provider, and it alone, has the frame from nobody.
fn is_provided(demand: &Demand, device: DevId, entry: Entry) -> bool
    ensures { IsTrue result ↔ ((device.0 ≡ demand.now.provider.0) ↔ (entry.rx_port ≡ 0)) }
{
    if device.0 == demand.provider.0 {
        entry.rx_port == 0
    } else {
        entry.rx_port != 0
    }
}

/// Whether somebody sends the frame to the receiving port, where there is one.
fn is_sent(net: &Net<'_>, device: DevId, entry: Entry) -> bool
    requires net { IsNet net.now }
    ensures { IsTrue result ↔ IsSent (setup_in net.now) device.0 entry }
{
    entry.rx_port == 0 || parent_of(net, device, entry).is_some()
}

/// Whether the consumers, and they alone, keep the frame.
fn is_consumed(demand: &Demand, device: DevId, entry: Entry) -> bool
    ensures { IsTrue result ↔ (IsBitSet entry.tx 0 ↔ Consumes demand.now device.0) }
{
    if has_bit(entry.tx, 0) {
        consumes(demand, device)
    } else {
        !consumes(demand, device)
    }
}

/// Whether parents lead from the entry at a place to the provider.
fn is_reached(net: &Net<'_>, marks: &Marks, demand: &Demand, device: DevId, place: usize) -> bool
    requires net { IsNet net.now }
    requires marks { AreMarks net.now marks.now }
    requires all { AreStuck net.now marks.now }
    requires there { (e : Entry) × Stands net.now.bundles.now device.0 place e × (demand_of net.now.plant.now e.frame.0 ≡ Some demand.now) }
    ensures { (e : Entry) → Stands net.now.bundles.now device.0 place e →
        (IsTrue result ↔ IsReached (setup_in net.now) demand.now.provider.0 e.frame.0 device.0) }
{
    way_at(marks, device, place).is_some()
}
