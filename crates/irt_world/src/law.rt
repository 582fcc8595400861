//! The laws of worlds.

ghost use Rattle.std.specs.Prelude.{List, All};
ghost use Rattle.irt_base.specs.declared.blocks.Bundle.{Bundle};
ghost use Rattle.irt_base.specs.declared.plants.Plant.{Plant};
ghost use Rattle.plan_rules.specs.Plan.{setup_of};
ghost use Rattle.plan_rules.specs.Way.{IsInRange};
ghost use Rattle.irt_world.specs.Rows.{Fits, world_rows};
ghost use Rattle.irt_world.specs.declared.rows.World.{World};

/// A world that fits delays each frame within its device's range. So it is one of those over which accepted plans are
/// safe.
pub fn fitting_worlds_are_in_range()
    ensures { (plant : Plant) (bundles : List Bundle) (world : World) → Fits plant bundles world →
        All (IsInRange (setup_of plant bundles)) (world_rows plant bundles world) }
{}
