//! The end of the cycle: V9.

ghost use Rattle.std.specs.Prelude.{◌≡◌, ◌<◌, ◌≤◌, ◌^◌, ◌+◌, ◌*◌, ◌↔◌, IsTrue};
ghost use Rattle.std.proofs.Common.{sym, ◌∙◌, arith};
ghost use Rattle.std.proofs.lemmas.Option.{none-some};
ghost use Rattle.irt_base.specs.Cycle.{wire_time, guard_time, cycle_time};
ghost use Rattle.irt_base.specs.Valid.{IsEntry};
ghost use Rattle.link_index.specs.Index.{IsIndexOf};
ghost use Rattle.plan_rules.specs.Frames.{EndsInCycle};
ghost use Rattle.irt_window.specs.declared.ports.TheConstants.{TX_BITS};
ghost use Rattle.plan_rules.specs.Places.{IsScan, place_of};
ghost use Rattle.way_rules.specs.Placed.{IsWayPlan};

use crate::entry_rule::EntryRule;
use crate::scan::first_break;
use irt_base::blocks::{Bundle, Entry};
use irt_base::cycles::{cycle_length, guard, wire};
use irt_base::limits::{MAX_DELAY, MAX_WINDOW};
use irt_base::list::Items;
use irt_base::numbers::{DevId, PortNo};
use irt_base::plants::Plant;
use irt_window::ports::{TX_BITS, leaves_by};
use link_index::index::LinkIndex;
use plan_rules::place::Place;
use plan_rules::way::Way;
use plan_rules::ways::ways_are_one;

/// V9: the least place, by device, port and frame, at which a frame is not sent and received a guard before
/// the cycle ends. `links` is the index of the plant's links.
pub fn cycle_break(
    links: &LinkIndex,
    plant: &Plant,
    bundles: &[Bundle],
    ways: &[Items<Way>],
) -> Option<Place>
    requires links { IsIndexOf plant.now links.now }
    requires plan { IsWayPlan plant.now bundles.now ways.now }
    ensures { IsScan (EndsInCycle plant.now bundles.now) result }
{
    first_break(links, plant, bundles, ways)
}

/// V9, by the hops of the plant's links.
impl EntryRule for LinkIndex {
    ghost PORTS = { TX_BITS };

    const PORTS: u8 = TX_BITS;

    ghost Holds = { λ plant bundles device port frame. EndsInCycle plant bundles (place_of device port frame) };

    ghost IsFor = { λ links plant. IsIndexOf plant links };

    fn holds(
        &self,
        plant: &Plant,
        _bundles: &[Bundle],
        device: DevId,
        port: PortNo,
        entry: Entry,
        way: Way,
    ) -> bool {
        ways_are_one();
        if !leaves_by(entry, port) {
            return true;
        }
        match self.hop(device, port) {
            None => true,
            Some(hop) => ends_in_cycle(plant, hop, entry, way),
        }
    }

    fn holds_later() {}

    ghost some_port = { Prim.omega arith };

    ghost absent = { λ plant bundles device port frame none e window hop sends hops. absurd (none-some e (sym none ∙ sends.stands)) };
}

/// Whether the frame is received, a hop after it is sent, a guard before the cycle ends.
fn ends_in_cycle(plant: &Plant, hop: u32, entry: Entry, way: Way) -> bool
    requires window { plant.now.window ≤ MAX_WINDOW }
    requires entry { IsEntry entry }
    requires hop { hop ≤ 3 * MAX_DELAY }
    requires small { way.hi < 2 ^ 39 }
    ensures { IsTrue result ↔ (way.hi + hop + wire_time entry.data_length + guard_time plant.now.window ≤ cycle_time plant.now.factor) }
{
    let end = way.hi + u64::from(hop) + u64::from(wire(entry.data_length));
    end + u64::from(guard(plant.window)) <= u64::from(cycle_length(plant.factor))
}
