//! Handing over to the devices.

ghost use Rattle.std.specs.Prelude.{◌≡◌, ◌+◌, ◌<◌, ◌≤◌, ◌++◌, ℕ, List, length, fold, slice_get, Some, All};
ghost use Rattle.irt_base.specs.declared.blocks.Bundle.{Bundle};
ghost use Rattle.irt_base.specs.declared.limits.TheConstants.{MAX_CYCLES};
ghost use Rattle.irt_base.specs.declared.numbers.PortNo.{PortNo};
ghost use Rattle.parcel_rules.specs.Loads.{Offers, hand_over};
ghost use Rattle.parcel_rules.specs.Made.{made_in, made_at_source};
ghost use Rattle.parcel_rules.specs.declared.handed.Handed.{Handed};
ghost use Rattle.plan_rules.specs.World.{WorldRow};
ghost use Rattle.plant_rules.specs.Meets.{MeetsRules};
ghost use Rattle.net_parcels.specs.Gates.{HoldOffers, HoldSome, AreAtPorts, all_but_gates};
ghost use Rattle.net_parcels.specs.Loads.{AreStepsOf, AreStepsOfSome};
ghost use Rattle.net_parcels.specs.Notes.{noted};
ghost use Rattle.net_parcels.specs.Parcels.{made_at_most};

use crate::notes::Notes;
use irt_base::list::Items;
use irt_base::numbers::{DevId, PortNo};
use irt_base::plants::{Plant, Traffic};
use irt_switch::Switch;
use parcel_loads::flight::Flight;
use parcel_loads::law::passing_follows_the_rules;
use parcel_loads::made::{made, makes};
use parcel_loads::passing::pass_on;
use parcel_rules::handed::Handed;

/// Hands a parcel over to its device in cycle `k`, and notes where it was refused or has come. `steps` are those of the
/// walks, by traffic entry. It takes no memory.
pub fn hand_over(
    plant: &Plant,
    steps: &[Items<(DevId, PortNo)>],
    k: u32,
    handed: Handed,
    switches: &mut [Switch],
    notes: &mut Notes,
)
    requires steps { AreAtPorts plant.now steps.now }
    requires held { HoldSome plant.now k switches.old notes.old }
    requires device { handed.device.0 < length switches.old }
    requires room { noted notes.old < notes.old.room }
    ensures rules { (bundles : List Bundle) (row : WorldRow) (walks : List (List PortNo)) (o : Offers) →
        AreStepsOf plant.now walks steps.now → HoldOffers plant.now bundles row k switches.old notes.old o →
        HoldOffers plant.now bundles row k switches.new notes.new (hand_over plant.now walks k o handed) }
    ensures kept { all_but_gates switches.new ≡ all_but_gates switches.old }
    ensures one { noted notes.new ≤ noted notes.old + 1 }
    ensures room { notes.new.room ≡ notes.old.room }
{
    let number = usize::from(handed.parcel.traffic);
    let (Some(entry), Some(walk)) = (plant.traffic.get(number), steps.get(number)) else {
        return;
    };
    passing_follows_the_rules();
    let switch = &mut switches[usize::from(handed.device.0)];
    let passed = pass_on(switch, entry, walk.as_slice(), handed);
    notes.note(k, handed, passed);
}

/// Hands all over in cycle `k`: what links have brought, then what is made. It takes no memory.
pub fn hand_over_all(
    plant: &Plant,
    steps: &[Items<(DevId, PortNo)>],
    k: u32,
    flight: &Flight,
    switches: &mut [Switch],
    notes: &mut Notes,
)
    requires rules { MeetsRules plant.now }
    requires run { k < MAX_CYCLES }
    requires walks { AreStepsOfSome plant.now steps.now }
    requires steps { AreAtPorts plant.now steps.now }
    requires held { HoldSome plant.now k switches.old notes.old }
    requires count { length plant.now.devices ≤ length switches.old }
    requires devices { All (λ (h : Handed). h.device.0 < length switches.old) flight.now.handed }
    requires room { noted notes.old + length flight.now.handed + made_at_most plant.now ≤ notes.old.room }
    ensures rules { (bundles : List Bundle) (row : WorldRow) (walks : List (List PortNo)) (o : Offers) →
        AreStepsOf plant.now walks steps.now → HoldOffers plant.now bundles row k switches.old notes.old o →
        HoldOffers plant.now bundles row k switches.new notes.new
        (fold (hand_over plant.now walks k) o (flight.now.handed ++ made_in plant.now k)) }
    ensures kept { all_but_gates switches.new ≡ all_but_gates switches.old }
    ensures room { notes.new.room ≡ notes.old.room }
{
    hand_over_flight(plant, steps, k, flight, switches, notes);
    hand_over_made(plant, steps, k, switches, notes);
}

/// Hands all over that links have brought, in its order. It takes no memory.
pub fn hand_over_flight(
    plant: &Plant,
    steps: &[Items<(DevId, PortNo)>],
    k: u32,
    flight: &Flight,
    switches: &mut [Switch],
    notes: &mut Notes,
)
    requires walks { AreStepsOfSome plant.now steps.now }
    requires steps { AreAtPorts plant.now steps.now }
    requires held { HoldSome plant.now k switches.old notes.old }
    requires devices { All (λ (h : Handed). h.device.0 < length switches.old) flight.now.handed }
    requires room { noted notes.old + length flight.now.handed ≤ notes.old.room }
    ensures rules { (bundles : List Bundle) (row : WorldRow) (walks : List (List PortNo)) (o : Offers) →
        AreStepsOf plant.now walks steps.now → HoldOffers plant.now bundles row k switches.old notes.old o →
        HoldOffers plant.now bundles row k switches.new notes.new
        (fold (hand_over plant.now walks k) o flight.now.handed) }
    ensures kept { all_but_gates switches.new ≡ all_but_gates switches.old }
    ensures few { noted notes.new ≤ noted notes.old + length flight.now.handed }
    ensures room { notes.new.room ≡ notes.old.room }
{
    for place in 0..flight.len() {
        let handed = handed_at(flight, place);
        hand_over(plant, steps, k, handed, switches, notes);
    }
}

/// The parcel at a place of those that links have brought.
fn handed_at(flight: &Flight, place: usize) -> Handed
    requires { place < length flight.now.handed }
    ensures { slice_get flight.now.handed place ≡ Some result }
{
    flight.as_slice()[place]
}

/// Hands all over that is made in cycle `k`, by traffic entry. It takes no memory.
pub fn hand_over_made(
    plant: &Plant,
    steps: &[Items<(DevId, PortNo)>],
    k: u32,
    switches: &mut [Switch],
    notes: &mut Notes,
)
    requires rules { MeetsRules plant.now }
    requires run { k < MAX_CYCLES }
    requires walks { AreStepsOfSome plant.now steps.now }
    requires steps { AreAtPorts plant.now steps.now }
    requires held { HoldSome plant.now k switches.old notes.old }
    requires devices { length plant.now.devices ≤ length switches.old }
    requires room { noted notes.old + made_at_most plant.now ≤ notes.old.room }
    ensures rules { (bundles : List Bundle) (row : WorldRow) (walks : List (List PortNo)) (o : Offers) →
        AreStepsOf plant.now walks steps.now → HoldOffers plant.now bundles row k switches.old notes.old o →
        HoldOffers plant.now bundles row k switches.new notes.new
        (fold (hand_over plant.now walks k) o (made_in plant.now k)) }
    ensures kept { all_but_gates switches.new ≡ all_but_gates switches.old }
    ensures room { notes.new.room ≡ notes.old.room }
{
    for number in 0..plant.traffic.len() {
        let entry = entry_at(plant, number);
        hand_over_made_by(plant, steps, k, number as u16, entry, switches, notes);
    }
}

/// The traffic entry of a number.
fn entry_at(plant: &Plant, number: usize) -> &Traffic
    requires rules { MeetsRules plant.now }
    requires there { number < length plant.now.traffic }
    ensures entry { slice_get plant.now.traffic number ≡ Some result.now }
    ensures every { 1 ≤ result.now.every }
    ensures source { result.now.source.0 < length plant.now.devices }
{
    &plant.traffic.as_slice()[number]
}

/// Hands all over that an entry makes in cycle `k`, by serial. `number` is the entry's. It takes no memory.
fn hand_over_made_by(
    plant: &Plant,
    steps: &[Items<(DevId, PortNo)>],
    k: u32,
    number: u16,
    entry: &Traffic,
    switches: &mut [Switch],
    notes: &mut Notes,
)
    requires every { 1 ≤ entry.now.every }
    requires run { k < MAX_CYCLES }
    requires walks { AreStepsOfSome plant.now steps.now }
    requires steps { AreAtPorts plant.now steps.now }
    requires held { HoldSome plant.now k switches.old notes.old }
    requires source { entry.now.source.0 < length switches.old }
    requires room { noted notes.old + entry.now.count ≤ notes.old.room }
    ensures rules { (bundles : List Bundle) (row : WorldRow) (walks : List (List PortNo)) (o : Offers) →
        AreStepsOf plant.now walks steps.now → HoldOffers plant.now bundles row k switches.old notes.old o →
        HoldOffers plant.now bundles row k switches.new notes.new
        (fold (hand_over plant.now walks k) o (made_at_source k number entry.now)) }
    ensures kept { all_but_gates switches.new ≡ all_but_gates switches.old }
    ensures few { noted notes.new ≤ noted notes.old + entry.now.count }
    ensures room { notes.new.room ≡ notes.old.room }
{
    if !makes(entry, k) {
        return;
    }
    let count: u8 = entry.count;
    for place in 0..count {
        let handed = made(entry, number, k, place);
        hand_over(plant, steps, k, handed, switches, notes);
    }
}
