//! Red periods: V7 and V8.

ghost use Rattle.std.specs.Prelude.{◌≡◌, ◌<◌, ◌≤◌, ◌^◌, ◌↔◌, IsTrue, length, slice_get, Some};
ghost use Rattle.std.proofs.Common.{sym, ◌∙◌, arith};
ghost use Rattle.std.proofs.lemmas.Option.{none-some};
ghost use Rattle.irt_base.specs.Periods.{period_at};
ghost use Rattle.irt_base.specs.Valid.{IsEntry, IsPeriodBlock};
ghost use Rattle.plan_rules.specs.SendWindow.{slack_time};
ghost use Rattle.plan_rules.specs.Frames.{IsSentInRed, IsReceivedInRed};
ghost use Rattle.irt_window.specs.declared.ports.TheConstants.{TX_BITS};
ghost use Rattle.plan_rules.specs.Places.{IsScan, place_of};
ghost use Rattle.way_rules.specs.Fits.{FitsRed, FitsPhase};
ghost use Rattle.way_rules.specs.Placed.{IsWayPlan};

use crate::entry_rule::EntryRule;
use crate::scan::first_break;
use irt_base::blocks::{Bundle, Entry, PeriodBlock, Side};
use irt_base::cycles::{due, guard, period, wire};
use irt_base::limits::{MAX_WINDOW, PHASES};
use irt_base::list::Items;
use irt_base::numbers::{DevId, PortNo};
use irt_base::plants::Plant;
use irt_window::ports::{TX_BITS, leaves_by};
use plan_rules::place::Place;
use plan_rules::way::Way;
use plan_rules::ways::ways_are_one;

/// V7: the least place, by device, port and frame, at which a frame is not sent in the sender's red period.
pub fn sent_break(plant: &Plant, bundles: &[Bundle], ways: &[Items<Way>]) -> Option<Place>
    requires { IsWayPlan plant.now bundles.now ways.now }
    ensures { IsScan (IsSentInRed plant.now bundles.now) result }
{
    first_break(&Sent, plant, bundles, ways)
}

/// V8: the least place, by receiver, receiving port and frame, at which a frame does not arrive in the
/// receiver's red period.
pub fn received_break(plant: &Plant, bundles: &[Bundle], ways: &[Items<Way>]) -> Option<Place>
    requires { IsWayPlan plant.now bundles.now ways.now }
    ensures { IsScan (IsReceivedInRed plant.now bundles.now) result }
{
    first_break(&Received, plant, bundles, ways)
}

/// V7.
struct Sent;

impl EntryRule for Sent {
    ghost PORTS = { TX_BITS };

    const PORTS: u8 = TX_BITS;

    ghost Holds = { λ plant bundles device port frame. IsSentInRed plant bundles (place_of device port frame) };

    ghost IsFor = { λ _ _. Unit {0} };

    fn holds(
        &self,
        plant: &Plant,
        bundles: &[Bundle],
        device: DevId,
        port: PortNo,
        entry: Entry,
        way: Way,
    ) -> bool {
        ways_are_one();
        if !leaves_by(entry, port) {
            return true;
        }
        let periods = &bundles[usize::from(device.0)].periods;
        let slack = slack(plant.window, device, way.anchor);
        let until = way.hi + u64::from(wire(entry.data_length)) + u64::from(slack);
        fits_red(periods, port, Side::Tx, entry, way.lo, until)
    }

    fn holds_later() {}

    ghost some_port = { Prim.omega arith };

    ghost absent = { λ plant bundles device port frame none e window b phase tx sends held among due is. absurd (none-some e (sym none ∙ sends.stands)) };
}

/// V8.
struct Received;

impl EntryRule for Received {
    ghost PORTS = { TX_BITS };

    const PORTS: u8 = TX_BITS;

    ghost Holds = { λ plant bundles device port frame. IsReceivedInRed plant bundles (place_of device port frame) };

    ghost IsFor = { λ _ _. Unit {0} };

    fn holds(
        &self,
        plant: &Plant,
        bundles: &[Bundle],
        device: DevId,
        port: PortNo,
        entry: Entry,
        way: Way,
    ) -> bool {
        ways_are_one();
        if port.0 == 0 || entry.rx_port != port.0 {
            return true;
        }
        let periods = &bundles[usize::from(device.0)].periods;
        let until = way.latest
            + u64::from(wire(entry.data_length))
            + u64::from(guard(plant.window));
        fits_red(periods, port, Side::Rx, entry, way.earliest, until)
    }

    fn holds_later() {}

    ghost some_port = { Prim.omega arith };

    ghost absent = { λ plant bundles device port frame none e hop window b phase rx comes at_port held among due is. absurd (none-some e (sym none ∙ comes.stands)) };
}

/// What has to lie between times of two devices' clocks, in ns.
fn slack(window: u32, first: DevId, second: DevId) -> u32
    requires { window ≤ MAX_WINDOW }
    ensures { result ≡ slack_time window first.0 second.0 }
{
    if first.0 == second.0 {
        0
    } else {
        guard(window)
    }
}

/// Whether in each phase in which the entry is due, the red period of a port's side covers the time from
/// `from` until `until`. A port without periods has none to cover.
fn fits_red(
    block: &PeriodBlock,
    port: PortNo,
    side: Side,
    entry: Entry,
    from: u64,
    until: u64,
) -> bool
    requires valid { IsPeriodBlock block.now }
    requires entry { IsEntry entry }
    requires from_one { 1 ≤ port.0 }
    ensures { IsTrue result ↔ FitsRed block.now port.0 side entry from until }
{
    if usize::from(port.0) > block.ports.len() {
        return true;
    }
    for phase in 0..PHASES {
        if !fits_phase(block, port, side, entry, phase, from, until) {
            return false;
        }
    }
    true
}

/// Whether it does in one phase, if the entry is due.
fn fits_phase(
    block: &PeriodBlock,
    port: PortNo,
    side: Side,
    entry: Entry,
    phase: u16,
    from: u64,
    until: u64,
) -> bool
    requires valid { IsPeriodBlock block.now }
    requires entry { IsEntry entry }
    requires from_one { 1 ≤ port.0 }
    requires there { port.0 ≤ length block.now.ports }
    ensures { IsTrue result ↔ FitsPhase block.now port.0 side entry phase from until }
{
    if !due(u32::from(phase), entry.ratio, entry.phase) {
        return true;
    }
    let red = period(block, port, u32::from(phase), side);
    u64::from(red.red) <= from && until <= u64::from(red.orange)
}
