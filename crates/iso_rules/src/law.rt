//! Laws of images and of runs.

ghost use Rattle.std.specs.Prelude.{◌≡◌, ◌↔◌, ◌≤◌, ◌<◌, ◌-◌, ◌/◌, ℕ, List, length, Option, Some, Contains, AllPairs, slice_get};
ghost use Rattle.cycle_rows.specs.Journal.{IsJournal};
ghost use Rattle.cycle_rows.specs.declared.rows.JournalRow.{JournalRow};
ghost use Rattle.irt_base.specs.Cycle.{IsDue};
ghost use Rattle.irt_base.specs.Valid.{IsRate};
ghost use Rattle.irt_base.specs.declared.blocks.Bundle.{Bundle};
ghost use Rattle.irt_base.specs.declared.blocks.Entry.{Entry};
ghost use Rattle.irt_base.specs.declared.plants.Demand.{Demand};
ghost use Rattle.irt_base.specs.declared.plants.Plant.{Plant};
ghost use Rattle.iso_rules.specs.Hold.{due_after, IsHeldOf, AgreesInRecent};
ghost use Rattle.iso_rules.specs.Image.{IsPlannedCycle, IsPart, IsImage, AreArrivals};
ghost use Rattle.iso_rules.specs.Legal.{IsLegal};
ghost use Rattle.iso_rules.specs.Lockstep.{IsLockstep, RunRecord, IsLockstepRecord};
ghost use Rattle.iso_rules.specs.Station.{entries_at, provided_of, consumed_of};
ghost use Rattle.iso_rules.specs.Turns.{AppRun};
ghost use Rattle.plan_rules.specs.Places.{IsAccepted};
ghost use Rattle.plan_rules.specs.Plan.{IsPlan, setup_of};
ghost use Rattle.plan_rules.specs.Tree.{demand_of, Consumes};
ghost use Rattle.plan_rules.specs.Way.{Setup};
ghost use Rattle.plan_rules.specs.World.{WorldRow};

use cycle_rows::law::journals_are_one;
use iso_app::apps::IsoApp;
use plan_rules::law::accepted_plans_can_be_played;

/// A frame has one planned cycle at most after a cycle, and a device one image. The planned cycle never falls.
pub fn images_are_one()
    ensures cycles { (setup : Setup) (world : List WorldRow) (device k : ℕ) (e : Entry) (c d : ℕ) →
        IsPlannedCycle setup world device e k c → IsPlannedCycle setup world device e k d → c ≡ d }
    ensures images { (setup : Setup) (world : List WorldRow) (taken : ℕ → ℕ → List ℕ) (device k : ℕ)
        (image other : List ℕ) → IsImage setup world taken device k image →
        IsImage setup world taken device k other → image ≡ other }
    ensures rising { (setup : Setup) (world : List WorldRow) (device k l : ℕ) (e : Entry) (c d : ℕ) → k ≤ l →
        IsPlannedCycle setup world device e k c → IsPlannedCycle setup world device e l d → c ≤ d }
{}

/// An image rests on the cycles up to its own alone, and on accepted plans, for each of its frames, on the last
/// `HOLD_CYCLES` of these in which the frame is due. After a cycle in which it is due, it is due once more with each
/// `ratio` cycles.
pub fn images_rest_on_recent_cycles()
    ensures past { (setup : Setup) (world other : List WorldRow) (taken given : ℕ → ℕ → List ℕ) (device k : ℕ)
        (image : List ℕ) → ((c : ℕ) → c ≤ k → slice_get world c ≡ slice_get other c) →
        ((c app : ℕ) → c ≤ k → taken app c ≡ given app c) →
        IsImage setup world taken device k image → IsImage setup other given device k image }
    ensures recent { (plant : Plant) (bundles : List Bundle) → IsPlan plant bundles → IsAccepted plant bundles →
        (world other : List WorldRow) (taken given : ℕ → ℕ → List ℕ) (device k : ℕ) (image : List ℕ) →
        ((e : Entry) → Contains (consumed_of (entries_at (setup_of plant bundles) device)) e →
        AgreesInRecent e k world other taken given) →
        IsImage (setup_of plant bundles) world taken device k image →
        IsImage (setup_of plant bundles) other given device k image }
    ensures spaced { (e : Entry) (c k : ℕ) → IsRate e.ratio e.phase → IsDue c e.ratio e.phase → c ≤ k →
        due_after e c k ≡ (k - c) / e.ratio }
{
    accepted_plans_can_be_played();
}

/// Where what came is what was loaded, in the cycles in which the frame has to reach the device, what is held of it is
/// its part of the device's image.
pub fn held_arrivals_are_parts()
    ensures { (setup : Setup) (world : List WorldRow) (taken : ℕ → ℕ → List ℕ) (device k : ℕ) (e : Entry)
        (came : ℕ → Option (List ℕ)) (part : List ℕ) → AreArrivals setup world taken device k e came →
        IsHeldOf came e k part → IsPart setup world taken device k e part }
{}

/// On accepted plans the frames that a device consumes and provides by its entries are those that the plant's demands
/// say, and they stand by ascending FrameID.
pub fn stations_serve_demands()
    ensures consumed { (plant : Plant) (bundles : List Bundle) → IsPlan plant bundles → IsAccepted plant bundles →
        (device frame : ℕ) →
        ((e : Entry) × Contains (consumed_of (entries_at (setup_of plant bundles) device)) e × (e.frame.0 ≡ frame)) ↔
        ((d : Demand) × (demand_of plant frame ≡ Some d) × Consumes d device) }
    ensures provided { (plant : Plant) (bundles : List Bundle) → IsPlan plant bundles → IsAccepted plant bundles →
        (device frame : ℕ) →
        ((e : Entry) × Contains (provided_of (entries_at (setup_of plant bundles) device)) e × (e.frame.0 ≡ frame)) ↔
        ((d : Demand) × (demand_of plant frame ≡ Some d) × (d.provider.0 ≡ device)) }
    ensures consumed_order { (plant : Plant) (bundles : List Bundle) → IsPlan plant bundles → (device : ℕ) →
        AllPairs (λ (a b : Entry). a.frame.0 < b.frame.0) (consumed_of (entries_at (setup_of plant bundles) device)) }
    ensures provided_order { (plant : Plant) (bundles : List Bundle) → IsPlan plant bundles → (device : ℕ) →
        AllPairs (λ (a b : Entry). a.frame.0 < b.frame.0) (provided_of (entries_at (setup_of plant bundles) device)) }
{
    accepted_plans_can_be_played();
}

/// The lockstep run of a plant is one, whatever its apps do, and for given rows of parcels it has one record.
pub fn lockstep_runs_are_one<A: IsoApp>()
    ensures runs { (setup : Setup) (world : List WorldRow) (states : List A) (cycles : ℕ)
        (runs others : List (AppRun A)) →
        IsLockstep A.reply A.next_state setup world states cycles runs →
        IsLockstep A.reply A.next_state setup world states cycles others → runs ≡ others }
    ensures records { (setup : Setup) (world : List WorldRow) (states : List A) (parcels : ℕ → List JournalRow)
        (r s : RunRecord JournalRow) →
        IsLockstepRecord A.reply A.next_state setup world states (IsJournal setup world parcels (length world)) r →
        IsLockstepRecord A.reply A.next_state setup world states (IsJournal setup world parcels (length world)) s →
        r ≡ s }
{
    journals_are_one();
}

/// The record of a lockstep run of one cycle or more is legal.
pub fn lockstep_records_are_legal<A: IsoApp>()
    ensures { (setup : Setup) (world : List WorldRow) (states : List A) (parcels : ℕ → List JournalRow)
        (r : RunRecord JournalRow) → 1 ≤ length world → length states ≡ length setup.plant.apps →
        IsLockstepRecord A.reply A.next_state setup world states (IsJournal setup world parcels (length world)) r →
        IsLegal A.reply A.next_state setup world states (IsJournal setup world parcels (length world)) r }
{}
