//! The plan of a plant, from the plant's file and its devices' files.

ghost use Rattle.plant_rules.specs.Meets.{MeetsRules};

use irt_base::list::Items;
use irt_base::plants::Plant;
use irt_io::shelf::Shelf;
use irt_steps::stop::Stop;
use irt_top::check::load_bundles;
use irt_top::files::load_plant;
use irt_top::run::accepted;
use plan_check::accepted::Accepted;
use std::alloc::Global;

/// The plan of a plant's file and of its devices' files, where the rules accept it.
pub fn load_plan<S: Shelf>(alloc: Global, shelf: &mut S, name: &str) -> Result<Accepted, Stop> {
    let plant = load_plant(alloc, shelf, name)?;
    plan_of(alloc, shelf, &plant)
}

/// The same of a plant that was read.
fn plan_of<S: Shelf>(alloc: Global, shelf: &mut S, plant: &Plant) -> Result<Accepted, Stop>
    requires { MeetsRules plant.now }
{
    let bundles = load_bundles(alloc, shelf, plant.devices.as_slice(), Items::new(alloc))?;
    accepted(alloc, plant, bundles.as_slice())
}
