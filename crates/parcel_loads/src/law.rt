//! The laws of handing over.

ghost use Rattle.std.specs.Prelude.{◌≡◌, ℕ, List, [], Some, slice_index_or};
ghost use Rattle.irt_base.specs.declared.numbers.PortNo.{PortNo};
ghost use Rattle.irt_base.specs.declared.plants.Plant.{Plant};
ghost use Rattle.irt_base.specs.declared.plants.Traffic.{Traffic};
ghost use Rattle.irt_switch.specs.State.{SwitchState};
ghost use Rattle.parcel_rules.specs.declared.handed.Handed.{Handed};
ghost use Rattle.parcel_rules.specs.Loads.{Offers, pass_on};
ghost use Rattle.parcel_rules.specs.Steps.{step_at};
ghost use Rattle.parcel_loads.specs.Follows.{HoldsAsMany, offers_after};
ghost use Rattle.parcel_loads.specs.Passing.{passed_of};

/// Where as many parcels wait at a switch's port as the rules say, what the switch answers about a parcel that is handed over
/// is what the rules do with it.
pub fn passing_follows_the_rules()
    ensures { (plant : Plant) (walks : List (List PortNo)) (k : ℕ) (o : Offers) (h : Handed) (t : Traffic) (state : SwitchState) →
        HoldsAsMany state t.«class» o.gates (step_at plant t.source (slice_index_or walks h.parcel.traffic []) h.device) →
        pass_on plant walks k o h (Some t)
        ≡ offers_after k t o h (step_at plant t.source (slice_index_or walks h.parcel.traffic []) h.device)
        (passed_of state t (step_at plant t.source (slice_index_or walks h.parcel.traffic []) h.device) h) }
{}
