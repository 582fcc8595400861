//! Printing plant files.

ghost use Rattle.std.specs.Prelude.{◌≡◌, ◌<◌, ◌^◌, IfOk, OnOk};
ghost use Rattle.std.specs.List.{AllByRecursion};
ghost use Rattle.toml.specs.View.{table_view};
ghost use Rattle.irt_base.specs.declared.plants.App.{App};
ghost use Rattle.irt_base.specs.declared.plants.Demand.{Demand};
ghost use Rattle.plant_rules.specs.Meets.{MeetsRules};
ghost use Rattle.irt_topo.specs.Reading.{IsPlantDocument};
ghost use Rattle.plant_print.specs.Written.{HasWordFields, plant_members, with_loads, with_network, with_settings};

use crate::build::{put, put_number, put_text};
use crate::names::clocks_text;
use crate::tables::{
    apps_value, demands_value, devices_value, links_value, sync_value, traffics_value,
};
use irt_base::memory::NoMemory;
use irt_base::plants::Plant;
use std::alloc::Global;
use toml::Table;

/// Prints a plant's file, which `read_plant` reads as the same plant.
pub fn print_plant(alloc: Global, plant: &Plant) -> Result<Vec<u8>, NoMemory>
    requires { MeetsRules plant.now }
    ensures { IfOk result (λ bytes. IsPlantDocument bytes.items plant.now) }
{
    let table = plant_table(alloc, plant)?;
    match toml::table_to_string(alloc, &table) {
        Ok(text) => Ok(text.into_bytes()),
        Err(_) => Err(NoMemory),
    }
}

/// A plant's file as a table.
fn plant_table(alloc: Global, plant: &Plant) -> Result<Table, NoMemory>
    requires { MeetsRules plant.now }
    ensures table { IfOk result (λ t. table_view t ≡ plant_members plant.now) }
    ensures small { OnOk result (HasWordFields plant.now) }
{
    let mut table = Table::new(alloc);
    put_settings(alloc, &mut table, plant)?;
    put_network(alloc, &mut table, plant)?;
    put_loads(alloc, &mut table, plant)?;
    Ok(table)
}

/// Adds the settings of the whole plant.
fn put_settings(alloc: Global, table: &mut Table, plant: &Plant) -> Result<(), NoMemory>
    ensures { OnOk result (table_view table.new ≡ with_settings plant.now (table_view table.old)) }
{
    put_number(alloc, table, "factor", u32::from(plant.factor))?;
    put_number(alloc, table, "window", plant.window)?;
    put_number(alloc, table, "red_max", plant.red_max)?;
    put_number(alloc, table, "orange", plant.orange)?;
    put_text(alloc, table, "clocks", clocks_text(plant.clocks))
}

/// Adds the devices, the links, and how clocks are kept.
fn put_network(alloc: Global, table: &mut Table, plant: &Plant) -> Result<(), NoMemory>
    requires { MeetsRules plant.now }
    ensures table { OnOk result (table_view table.new ≡ with_network plant.now (table_view table.old)) }
    ensures small { OnOk result (plant.now.sync.loss < 2 ^ 32) }
{
    let loss: u32 = plant.sync.loss;
    let sync = sync_value(alloc, plant.sync)?;
    put(alloc, table, "sync", sync)?;
    let devices = devices_value(alloc, plant)?;
    put(alloc, table, "device", devices)?;
    let links = links_value(alloc, plant)?;
    put(alloc, table, "link", links)
}

/// Adds what the network carries: demands, traffic and apps.
fn put_loads(alloc: Global, table: &mut Table, plant: &Plant) -> Result<(), NoMemory>
    requires { MeetsRules plant.now }
    ensures table { OnOk result (table_view table.new ≡ with_loads plant.now (table_view table.old)) }
    ensures updates { OnOk result (AllByRecursion (λ (d : Demand). d.update < 2 ^ 32) plant.now.demands) }
    ensures params { OnOk result (AllByRecursion (λ (a : App). a.param < 2 ^ 32) plant.now.apps) }
{
    let demands = demands_value(alloc, plant)?;
    put(alloc, table, "demand", demands)?;
    let traffic = traffics_value(alloc, plant)?;
    put(alloc, table, "traffic", traffic)?;
    let apps = apps_value(alloc, plant)?;
    put(alloc, table, "app", apps)
}
