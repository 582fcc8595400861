//! The files that commands read: plants and device files.

ghost use Rattle.std.specs.Prelude.{◌≡◌, IfOk, All, ◌++◌, length, string_bytes};
ghost use Rattle.std.specs.List.{AllByRecursion};
ghost use Rattle.irt_base.specs.Valid.{IsBundle};
ghost use Rattle.irt_block.specs.Header.{whole_of};
ghost use Rattle.irt_bundle.specs.Bundles.{bundle_in};
ghost use Rattle.irt_io.specs.Fault.{IsLater};
ghost use Rattle.plant_rules.specs.Meets.{MeetsRules, IsNameByte};
ghost use Rattle.irt_topo.specs.Reading.{plant_of};
ghost use Rattle.irt_steps.specs.Follow.{Follows, Answers, HasCause};
ghost use Rattle.irt_top.specs.DeviceFiles.{bundle_answer, bundle_steps, device_file_of};
ghost use Rattle.irt_top.specs.PlantFile.{plant_answer, plant_steps};

use crate::line::{malformed_line, not_toml_line, rule_line};
use irt_base::blocks::Bundle;
use irt_base::limits::{DEVICE_FILE, PLANT_FILE};
use irt_base::memory::NoMemory;
use irt_base::plants::Plant;
use irt_block::BlockKind;
use irt_bundle::read_bundle;
use irt_io::shelf::Shelf;
use irt_steps::line::line_stop;
use irt_steps::load::load_file;
use irt_steps::stop::{Cause, Stop};
use irt_topo::fault::PlantFault;
use irt_topo::read::read_plant;
use std::alloc::Global;

/// The plant of a file.
pub fn load_plant<S: Shelf>(alloc: Global, shelf: &mut S, name: &str) -> Result<Plant, Stop>
    ensures step { Follows (λ p. p) (plant_steps name.now) (S.files shelf.old) (S.files shelf.new) result }
    ensures rules { IfOk result MeetsRules }
    ensures kept { S.files shelf.new ≡ S.files shelf.old }
    ensures cause { HasCause (S.faults shelf.old) (S.faults shelf.new) result }
    ensures later { IsLater (S.faults shelf.old) (S.faults shelf.new) }
{
    let bytes = load_file(alloc, shelf, name, PLANT_FILE)?;
    plant_in(alloc, bytes.as_slice())
}

/// The plant that bytes state.
fn plant_in(alloc: Global, bytes: &[u8]) -> Result<Plant, Stop>
    ensures answer { Answers (λ p. p) (plant_answer (plant_of bytes.now)) result }
    ensures rules { IfOk result MeetsRules }
{
    match read_plant(alloc, bytes) {
        Ok(plant) => Ok(plant),
        Err(PlantFault::NoMemory) => Err(Stop::NoMemory),
        Err(PlantFault::NotToml) => Err(line_stop(Cause::Plant, not_toml_line(alloc))),
        Err(PlantFault::Rule { number, index }) => {
            Err(line_stop(Cause::Plant, rule_line(alloc, number, index)))
        }
    }
}

/// The bundle of a device file.
pub fn load_bundle<S: Shelf>(alloc: Global, shelf: &mut S, name: &str) -> Result<Bundle, Stop>
    ensures step { Follows (λ b. b) (bundle_steps name.now) (S.files shelf.old) (S.files shelf.new) result }
    ensures valid { IfOk result IsBundle }
    ensures kept { S.files shelf.new ≡ S.files shelf.old }
    ensures cause { HasCause (S.faults shelf.old) (S.faults shelf.new) result }
    ensures later { IsLater (S.faults shelf.old) (S.faults shelf.new) }
{
    let bytes = load_file(alloc, shelf, name, DEVICE_FILE)?;
    bundle_in(alloc, name, bytes.as_slice())
}

/// The bundle that the bytes of a device file spell.
fn bundle_in(alloc: Global, name: &str, bytes: &[u8]) -> Result<Bundle, Stop>
    ensures answer { Answers (λ b. b) (bundle_answer name.now (whole_of bundle_in bytes.now)) result }
    ensures valid { IfOk result IsBundle }
{
    match read_bundle(alloc, bytes) {
        Ok(bundle) => Ok(bundle),
        Err(fault) if fault.kind == BlockKind::NoMemory => Err(Stop::NoMemory),
        Err(fault) => Err(line_stop(Cause::Malformed, malformed_line(alloc, name, fault))),
    }
}

/// The name of a device's file.
pub fn device_file(alloc: Global, name: &[u8]) -> Result<String, NoMemory>
    requires { AllByRecursion IsNameByte name.now }
    ensures { IfOk result (λ file. string_bytes file ≡ device_file_of name.now) }
{
    let mut file = text_of(alloc, name)?;
    file.push_str(".ird")?;
    Ok(file)
}

/// A name as text.
fn text_of(alloc: Global, name: &[u8]) -> Result<String, NoMemory>
    requires { AllByRecursion IsNameByte name.now }
    ensures { IfOk result (λ text. string_bytes text ≡ name.now) }
{
    let mut text = String::new(alloc);
    for letter in name {
        text.push(char::from(*letter))?;
    }
    Ok(text)
}
