//! What a wiring makes unique: the way of a frame back to its provider, and so its window.

ghost use Rattle.std.specs.Prelude.{◌≡◌, ℕ, ℤ, Some};
ghost use Rattle.irt_base.specs.Wiring.{peer_of};
ghost use Rattle.irt_base.specs.declared.blocks.Entry.{Entry};
ghost use Rattle.irt_base.specs.declared.plants.Plant.{Plant};
ghost use Rattle.plant_rules.specs.Meets.{MeetsRules};
ghost use Rattle.plan_rules.specs.Way.{Setup, IsParent, IsStart};
ghost use Rattle.plan_rules.specs.SendWindow.{SendWindow, HasWindow};
ghost use Rattle.plan_rules.specs.World.{WorldRow};

/// On a plant that meets its rules each end of a link is the other's peer. So a frame has one parent at a device,
/// one window, and in a cycle one start.
pub fn ways_are_one()
    ensures mutual { (plant : Plant) → MeetsRules plant → (d p v q : ℕ) →
        peer_of plant d p ≡ Some (record { 0 = v }, record { 0 = q }) →
        peer_of plant v q ≡ Some (record { 0 = d }, record { 0 = p }) }
    ensures parents { (setup : Setup) → MeetsRules setup.plant → (frame device : ℕ) (e : Entry) (u p v q : ℕ) →
        IsParent setup frame device e u p → IsParent setup frame device e v q → (u ≡ v) × (p ≡ q) }
    ensures windows { (setup : Setup) → MeetsRules setup.plant → (frame device : ℕ) (v w : SendWindow) →
        HasWindow setup frame device v → HasWindow setup frame device w → v ≡ w }
    ensures starts { (setup : Setup) → MeetsRules setup.plant → (row : WorldRow) (k frame device : ℕ) (s t : ℤ) →
        IsStart setup row k frame device s → IsStart setup row k frame device t → s ≡ t }
{}
