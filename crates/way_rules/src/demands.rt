//! What is demanded: V3.

ghost use Rattle.std.specs.Prelude.{◌≡◌, ◌*◌, ◌≤◌, ◌↔◌, IsTrue, Some};
ghost use Rattle.std.specs.Option.{option_copied};
ghost use Rattle.std.proofs.Common.{sym, ◌∙◌, arith};
ghost use Rattle.std.proofs.lemmas.Option.{none-some};
ghost use Rattle.irt_base.specs.Cycle.{cycle_time};
ghost use Rattle.irt_base.specs.Valid.{IsEntry};
ghost use Rattle.irt_base.specs.declared.blocks.Entry.{Entry};
ghost use Rattle.plan_rules.specs.Tree.{demand_of};
ghost use Rattle.plan_rules.specs.Way.{entry_at};
ghost use Rattle.irt_window.specs.Demands.{AreNumbers};
ghost use Rattle.plan_rules.specs.Frames.{AgreesWithDemand, IsAsDemanded};
ghost use Rattle.plan_rules.specs.Places.{IsScan, place_of};
ghost use Rattle.plan_rules.specs.Plan.{IsPlan, setup_of};
ghost use Rattle.way_rules.specs.Placed.{IsWayPlan};

use crate::entry_rule::EntryRule;
use crate::scan::first_break;
use irt_base::blocks::{Bundle, Entry};
use irt_base::cycles::cycle_length;
use irt_base::list::Items;
use irt_base::numbers::{DevId, FrameId, PortNo};
use irt_base::plants::{Demand, Plant};
use irt_window::search::entry_index;
use plan_rules::place::Place;
use plan_rules::way::Way;

/// V3: the least place, by device and frame, at which an entry is not what the frame's demand and its
/// provider say. `numbers` are the plant's demands by FrameID.
pub fn demand_break(
    numbers: &Items<Option<u16>>,
    plant: &Plant,
    bundles: &[Bundle],
    ways: &[Items<Way>],
) -> Option<Place>
    requires numbers { AreNumbers plant.now numbers.now }
    requires plan { IsWayPlan plant.now bundles.now ways.now }
    ensures { IsScan (AgreesWithDemand plant.now bundles.now) result }
{
    first_break(numbers, plant, bundles, ways)
}

/// V3, by the plant's demands by FrameID.
impl EntryRule for Items<Option<u16>> {
    ghost PORTS = { 1 };

    const PORTS: u8 = 1;

    ghost Holds = { λ plant bundles device port frame. AgreesWithDemand plant bundles (place_of device port frame) };

    ghost IsFor = { λ numbers plant. AreNumbers plant numbers };

    fn holds(
        &self,
        plant: &Plant,
        bundles: &[Bundle],
        _device: DevId,
        _port: PortNo,
        entry: Entry,
        _way: Way,
    ) -> bool {
        match demand_for(self, plant, entry.frame) {
            None => true,
            Some(demand) => agrees(plant, bundles, demand, entry),
        }
    }

    fn holds_later() {}

    ghost some_port = { Prim.omega arith };

    ghost absent = { λ plant bundles device port frame none demand own e asks has is. absurd (none-some e (sym none ∙ is)) };
}

/// The demand that asks for a frame.
fn demand_for<'a>(
    numbers: &Items<Option<u16>>,
    plant: &'a Plant,
    frame: FrameId,
) -> Option<&'a Demand>
    requires { AreNumbers plant.now numbers.now }
    ensures { option_copied result ≡ demand_of plant.now frame.0 }
{
    match numbers.as_slice().get(usize::from(frame.0)) {
        Some(Some(number)) => plant.demands.get(usize::from(*number)),
        _ => None,
    }
}

/// Whether an entry is what its demand and the provider's entry say, if the provider has one.
fn agrees(plant: &Plant, bundles: &[Bundle], demand: &Demand, entry: Entry) -> bool
    requires plan { IsPlan plant.now bundles.now }
    requires entry { IsEntry entry }
    ensures { IsTrue result ↔ ((own : Entry) →
        entry_at (setup_of plant.now bundles.now) demand.now.provider.0 entry.frame.0 ≡ Some own → IsAsDemanded plant.now demand.now own entry) }
{
    match entry_of(plant, bundles, demand.provider, entry.frame) {
        None => true,
        Some(own) => is_as_demanded(plant, demand, own, entry),
    }
}

/// The entry of a frame at a device.
fn entry_of(plant: &Plant, bundles: &[Bundle], device: DevId, frame: FrameId) -> Option<Entry>
    requires { IsPlan plant.now bundles.now }
    ensures { result ≡ entry_at (setup_of plant.now bundles.now) device.0 frame.0 }
{
    let bundle = bundles.get(usize::from(device.0))?;
    let entries = bundle.frames.entries.as_slice();
    let place = entry_index(entries, frame)?;
    Some(entries[place])
}

/// Whether an entry has the demand's length, comes often enough, and in the cycles of the provider's.
fn is_as_demanded(plant: &Plant, demand: &Demand, own: Entry, entry: Entry) -> bool
    requires { IsEntry entry }
    ensures { IsTrue result ↔ IsAsDemanded plant.now demand.now own entry }
{
    entry.data_length == demand.length
        && is_often(plant, demand, entry)
        && entry.ratio == own.ratio
        && entry.phase == own.phase
}

fn is_often(plant: &Plant, demand: &Demand, entry: Entry) -> bool
    requires { IsEntry entry }
    ensures { IsTrue result ↔ (entry.ratio * cycle_time plant.now.factor ≤ demand.now.update) }
{
    u32::from(entry.ratio) * cycle_length(plant.factor) <= demand.update
}
