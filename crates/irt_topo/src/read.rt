//! Reading plant files.

ghost use Rattle.std.specs.Prelude.{◌≡◌, Err, IfErr, IfOk, min};
ghost use Rattle.plant_rules.specs.Meets.{MeetsRules};
ghost use Rattle.irt_topo.specs.Reading.{PlantRefusal, IsPlantAnswer, IsPlantDocument, IsFaultOf, IsRefusal, plant_of};
ghost use Rattle.irt_topo.specs.Rules.{number_of};
ghost use Rattle.irt_topo.specs.Stated.{in_two_bytes};
ghost use Rattle.irt_topo.specs.declared.fault.PlantFault.TheVariants as faults;

use crate::fault::PlantFault;
use crate::rules::{Rule, first_failure};
use crate::stated::stated_plant;
use irt_base::plants::Plant;
use plant_shape::fault::ShapeFault;
use plant_shape::shape::read_shape;
use std::alloc::Global;

/// Reads a plant file of any length. `NotToml` comes exactly where the bytes are no TOML document, and
/// `Rule` is the first rule that fails and the least index at which it does.
pub fn read_plant(alloc: Global, bytes: &[u8]) -> Result<Plant, PlantFault>
    ensures answer { IsPlantAnswer result (plant_of bytes.now) }
    ensures document { IfOk result (IsPlantDocument bytes.now) }
    ensures rules { IfOk result MeetsRules }
    ensures refused { IfErr result (IsFaultOf bytes.now) }
    // A file that is a plant's is read, memory aside, as that plant and no other.
    ensures only { (p : Plant) → IsPlantDocument bytes.now p → IsPlantAnswer result (Ok p) }
    // Bytes with a refusal are refused by it, memory aside, and by no other.
    ensures refuses { (refusal : PlantRefusal) → IsRefusal bytes.now refusal → IsPlantAnswer result (Err refusal) }
{
    judged_plant(alloc, bytes)
}

fn judged_plant(alloc: Global, bytes: &[u8]) -> Result<Plant, PlantFault>
    ensures { IsPlantAnswer result (plant_of bytes.now) }
{
    let raw = match read_shape(alloc, bytes) {
        Ok(raw) => raw,
        Err(ShapeFault::NoMemory) => return Err(PlantFault::NoMemory),
        Err(ShapeFault::NotToml) => return Err(PlantFault::NotToml),
        Err(ShapeFault::Shape) => {
            return Err(PlantFault::Rule {
                number: 1,
                index: 0,
            });
        }
    };
    let plant = stated_plant(alloc, raw)?;
    match first_failure(&plant) {
        None => Ok(plant),
        Some((rule, index)) => Err(rule_fault(rule, index)),
    }
}

fn rule_fault(rule: Rule, index: usize) -> PlantFault
    ensures { result ≡ faults.Rule (number_of rule) (in_two_bytes index) }
{
    PlantFault::Rule {
        number: rule.number(),
        index: index.min(65535) as u16,
    }
}
