//! What the rules and the readings of plant files amount to.

ghost use Rattle.std.specs.Prelude.{◌≡◌, ◌↔◌, ℕ, List, Ok, Err};
ghost use Rattle.irt_base.specs.declared.plants.Plant.{Plant as APlant};
ghost use Rattle.plant_rules.specs.Meets.{MeetsRules};
ghost use Rattle.plant_rules.specs.Rules.{KeepsRule};
ghost use Rattle.irt_topo.specs.Reading.{PlantRefusal, IsPlantDocument, IsRefusal, plant_of};

/// A plant meets the rules list by list exactly where each rule holds at each index. Bytes are read as a
/// plant exactly where they are its document, and they are refused exactly by what their refusal says.
pub fn plants_law()
    ensures table { (p : APlant) → MeetsRules p ↔ ((number index : ℕ) → KeepsRule p number index) }
    ensures document { (bytes : List ℕ) (p : APlant) → (plant_of bytes ≡ Ok p) ↔ IsPlantDocument bytes p }
    ensures refusal { (bytes : List ℕ) (refusal : PlantRefusal) → (plant_of bytes ≡ Err refusal) ↔ IsRefusal bytes refusal }
{}
