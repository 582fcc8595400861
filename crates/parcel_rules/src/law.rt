//! The laws of parcels.

ghost use Rattle.std.specs.Prelude.{◌≡◌, ℕ, ◌+◌, ◌≤◌, List, length, All};
ghost use Rattle.irt_base.specs.Wiring.{peer_of};
ghost use Rattle.irt_base.specs.declared.blocks.Bundle.{Bundle};
ghost use Rattle.irt_base.specs.declared.blocks.Period.{Period};
ghost use Rattle.irt_base.specs.declared.numbers.PortNo.{PortNo};
ghost use Rattle.irt_base.specs.declared.plants.Class.{Class};
ghost use Rattle.irt_base.specs.declared.plants.Plant.{Plant};
ghost use Rattle.irt_route.specs.Routes.{AreTrafficWalks};
ghost use Rattle.irt_switch.specs.Begin.{begun_gate};
ghost use Rattle.period_gate.specs.declared.parcels.Parcel.{Parcel};
ghost use Rattle.period_gate.specs.declared.parcels.Sent.{Sent};
ghost use Rattle.period_gate.specs.Gate.{Waiting, queue_of, with_last};
ghost use Rattle.period_gate.specs.SentList.{left_of};
ghost use Rattle.plant_rules.specs.Meets.{MeetsRules};
ghost use Rattle.plan_rules.specs.Places.{IsAccepted};
ghost use Rattle.plan_rules.specs.Plan.{IsPlan, setup_of};
ghost use Rattle.plan_rules.specs.Way.{IsInRange};
ghost use Rattle.plan_rules.specs.World.{WorldRow};
ghost use Rattle.cycle_rows.specs.Journal.{IsJournal};
ghost use Rattle.cycle_rows.specs.Parcels.{AreParcelRows};
ghost use Rattle.cycle_rows.specs.Safe.{IsSafeJournal};
ghost use Rattle.cycle_rows.specs.declared.rows.JournalRow.{JournalRow};
ghost use Rattle.parcel_rules.specs.Cycle.{loads_at};
ghost use Rattle.parcel_rules.specs.Fates.{HasOneFate};
ghost use Rattle.parcel_rules.specs.Loads.{no_loads};
ghost use Rattle.parcel_rules.specs.Room.{pending, most_rows};
ghost use Rattle.parcel_rules.specs.Rows.{parcel_rows};

use cycle_rows::law::journals_of_accepted_plans_are_safe;
use period_gate::sent_list::cycle_law;

/// Over accepted plans and any world, and whatever walks the parcels take: each parcel is sent in a stretch of true
/// time that its port leaves to parcels, and of two parcels of a port one is off the wire before the other starts. So
/// in the journal of any number of cycles, where bridge delays are in their ranges, no link direction is used by two
/// at once, be they frames or parcels, and each due frame is sent and delivered as it has to be.
pub fn parcels_of_accepted_plans_are_apart()
    ensures rows { (plant : Plant) (bundles : List Bundle) → IsPlan plant bundles → IsAccepted plant bundles →
        (walks : List (List PortNo)) (world : List WorldRow) (k : ℕ) →
        AreParcelRows plant bundles world k (parcel_rows plant bundles walks world k) }
    ensures journal { (plant : Plant) (bundles : List Bundle) → IsPlan plant bundles → IsAccepted plant bundles →
        (walks : List (List PortNo)) (world : List WorldRow) → All (IsInRange (setup_of plant bundles)) world →
        (cycles : ℕ) (rows : List JournalRow) →
        IsJournal (setup_of plant bundles) world (parcel_rows plant bundles walks world) cycles rows →
        IsSafeJournal (setup_of plant bundles) world cycles rows }
{
    cycle_law();
    journals_of_accepted_plans_are_safe();
}

/// On a plant that meets its rules, where each traffic entry has its shortest walk: after any number of the world's
/// cycles each parcel that was made waits at a port, is on the way over a link, was refused, was lost or has come:
/// one of these, and once. Nothing else is, and no two parcels are made with one serial of an entry.
pub fn parcels_have_one_fate()
    ensures { (plant : Plant) (bundles : List Bundle) → MeetsRules plant →
        (walks : List (List PortNo)) → AreTrafficWalks (peer_of plant) plant.traffic walks →
        (world : List WorldRow) (cycles : ℕ) → cycles ≤ length world → (traffic serial : ℕ) →
        HasOneFate plant bundles walks world cycles traffic serial }
{
    cycle_law();
}

/// How many rows of the journal parcels need. A cycle may have more of them than what is made in it ever gets, since
/// queues that have waited drain at once. But its rows are taken from those that parcels may still get, which what is
/// made in a cycle raises by at most `most_rows`, and which are none before the first cycle.
pub fn parcels_keep_to_their_room()
    ensures cycle { (plant : Plant) (bundles : List Bundle) → MeetsRules plant →
        (walks : List (List PortNo)) → AreTrafficWalks (peer_of plant) plant.traffic walks →
        (world : List WorldRow) (k : ℕ) →
        length (parcel_rows plant bundles walks world k)
        + pending plant walks (loads_at plant bundles walks world (k + 1))
        ≤ pending plant walks (loads_at plant bundles walks world k) + most_rows plant walks }
    ensures start { (plant : Plant) (walks : List (List PortNo)) → pending plant walks no_loads ≡ 0 }
{
    cycle_law();
}

/// The gates of the ports as the cycles go by. The period of a cycle changes no queue: so offers, and what is sent,
/// leave the same queues whether the cycle was begun before or after.
pub fn gates_keep_their_queues()
    ensures offered { (b : Bundle) (tx : Period) (kind : Class) (parcel : Parcel) (gate : Waiting) →
        with_last kind parcel (begun_gate b tx gate) ≡ begun_gate b tx (with_last kind parcel gate) }
    ensures sent { (b : Bundle) (tx : Period) (sent : List Sent) (gate : Waiting) →
        left_of (begun_gate b tx gate) sent ≡ begun_gate b tx (left_of gate sent) }
    ensures begun { (b c : Bundle) (tx ux : Period) (gate : Waiting) →
        begun_gate b tx (begun_gate c ux gate) ≡ begun_gate b tx gate }
    ensures queues { (b : Bundle) (tx : Period) (kind : Class) (gate : Waiting) →
        queue_of kind (begun_gate b tx gate) ≡ queue_of kind gate }
{}
