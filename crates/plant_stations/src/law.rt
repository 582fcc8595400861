//! Laws of stations.

ghost use Rattle.std.specs.Prelude.{◌≡◌, ℕ, ◌<◌, ◌≤◌, List};
ghost use Rattle.cycle_frames.specs.Bytes.{AreFramesOf};
ghost use Rattle.irt_base.specs.declared.blocks.Bundle.{Bundle};
ghost use Rattle.irt_base.specs.declared.limits.TheConstants.{MAX_WORDS};
ghost use Rattle.irt_base.specs.declared.plants.Plant.{Plant};
ghost use Rattle.iso_rules.specs.Station.{input_count, output_count};
ghost use Rattle.plan_rules.specs.Places.{IsAccepted};
ghost use Rattle.plan_rules.specs.Plan.{IsPlan, setup_of};
ghost use Rattle.plan_rules.specs.World.{WorldRow};
ghost use Rattle.plant_stations.specs.Loaded.{AreLoaded};
ghost use Rattle.plant_stations.specs.Stations.{StationsState, HavePlayed};

use iso_rules::law::stations_serve_demands;

/// What stations hold rests on the words taken in the cycles that are done, and on no others.
pub fn stations_rest_on_done_cycles()
    ensures { (world : List WorldRow) (taken given : ℕ → ℕ → List ℕ) (done : ℕ) (s : StationsState) →
        ((app k : ℕ) → k < done → taken app k ≡ given app k) → HavePlayed world taken done s →
        HavePlayed world given done s }
{}

/// On accepted plans the frames that are due are, where they are loaded, frames of their demands.
pub fn loaded_frames_are_demanded()
    ensures { (plant : Plant) (bundles : List Bundle) → IsPlan plant bundles → IsAccepted plant bundles →
        (taken : ℕ → ℕ → List ℕ) (k : ℕ) (frames : List (List ℕ)) →
        AreLoaded (setup_of plant bundles) taken k frames → AreFramesOf (setup_of plant bundles) k frames }
{}

/// On accepted plans a device sends and receives so few words that exchanges can have them.
pub fn stations_fit_exchanges()
    ensures inputs { (plant : Plant) (bundles : List Bundle) → IsPlan plant bundles → IsAccepted plant bundles →
        (device : ℕ) → input_count (setup_of plant bundles) device ≤ MAX_WORDS }
    ensures outputs { (plant : Plant) (bundles : List Bundle) → IsPlan plant bundles → IsAccepted plant bundles →
        (device : ℕ) → output_count (setup_of plant bundles) device ≤ MAX_WORDS }
{
    stations_serve_demands();
}
