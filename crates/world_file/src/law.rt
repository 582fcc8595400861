//! The laws of world files.

ghost use Rattle.std.specs.Prelude.{◌≡◌, ◌⊎◌, ℕ, List};
ghost use Rattle.irt_base.specs.declared.blocks.Bundle.{Bundle};
ghost use Rattle.irt_base.specs.declared.plants.Plant.{Plant};
ghost use Rattle.irt_world.specs.declared.rows.World.{World};
ghost use Rattle.plan_rules.specs.Plan.{IsPlan};
ghost use Rattle.world_file.specs.Text.{IsWorldFile};
ghost use Rattle.world_file.specs.Wrong.{IsFirstWrong};

/// A file is that of one world at most.
pub fn one_world()
    ensures { (plant : Plant) (bundles : List Bundle) (cycles : ℕ) (bytes : List ℕ) (world other : World) →
        IsPlan plant bundles → IsWorldFile plant bundles cycles bytes world →
        IsWorldFile plant bundles cycles bytes other → world ≡ other }
{}

/// One line and place are the first wrong ones, at most. The file of a world has none.
pub fn one_first_wrong()
    ensures one { (plant : Plant) (bundles : List Bundle) (cycles : ℕ) (bytes : List ℕ) (line place : ℕ)
        (other_line other_place : ℕ) → IsPlan plant bundles → IsFirstWrong plant bundles cycles bytes line place →
        IsFirstWrong plant bundles cycles bytes other_line other_place → (line ≡ other_line) × (place ≡ other_place) }
    ensures none { (plant : Plant) (bundles : List Bundle) (cycles : ℕ) (bytes : List ℕ) (world : World)
        (line place : ℕ) → IsPlan plant bundles → IsWorldFile plant bundles cycles bytes world →
        ¬ IsFirstWrong plant bundles cycles bytes line place }
{}

/// Any bytes are the file of a world, or have a first wrong line and place.
pub fn right_or_wrong()
    ensures { (plant : Plant) (bundles : List Bundle) (cycles : ℕ) (bytes : List ℕ) → IsPlan plant bundles →
        ((world : World) × IsWorldFile plant bundles cycles bytes world)
        ⊎ ((line : ℕ) × (place : ℕ) × IsFirstWrong plant bundles cycles bytes line place) }
{}
