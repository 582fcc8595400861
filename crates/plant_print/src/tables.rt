//! The tables of a plant file.

ghost use Rattle.std.specs.Prelude.{◌≡◌, ◌<◌, ◌^◌, IfOk, OnOk};
ghost use Rattle.std.specs.List.{AllByRecursion};
ghost use Rattle.toml.specs.View.{view, table_view};
ghost use Rattle.plant_rules.specs.Meets.{IsName, MeetsRules};
ghost use Rattle.plant_print.specs.Written.{with_member, with_sync, with_device, with_link, with_demand, with_traffic, with_app, port_data, sync_data, device_data, link_data, name_data, demand_data, traffic_data, app_data, list_data};

use crate::build::{name_value, number_value, put, put_name, put_number, put_text};
use crate::names::{app_text, class_text, mode_text};
use irt_base::blocks::PortDelay;
use irt_base::memory::NoMemory;
use irt_base::numbers::DevId;
use irt_base::plants::{App, Demand, Device, Link, Plant, SyncPlan, Traffic};
use std::alloc::Global;
use toml::{Table, Value};

/// The `sync` table.
pub fn sync_value(alloc: Global, sync: SyncPlan) -> Result<Value, NoMemory>
    ensures { IfOk result (λ v. view v ≡ sync_data sync) }
{
    let mut table = Table::new(alloc);
    put_sync(alloc, &mut table, sync)?;
    Ok(Value::Table(table))
}

/// Adds the keys of a `sync` table.
fn put_sync(alloc: Global, table: &mut Table, sync: SyncPlan) -> Result<(), NoMemory>
    ensures { OnOk result (table_view table.new ≡ with_sync sync (table_view table.old)) }
{
    put_number(alloc, table, "send", sync.send)?;
    put_number(alloc, table, "timeout", u32::from(sync.timeout))?;
    put_number(alloc, table, "drift", sync.drift)?;
    put_number(alloc, table, "stamp", sync.stamp)?;
    put_number(alloc, table, "loss", sync.loss)
}

/// An entry of `ports`.
fn port_value(alloc: Global, port: PortDelay) -> Result<Value, NoMemory>
    ensures { IfOk result (λ v. view v ≡ port_data port) }
{
    let mut pair = Vec::new(alloc);
    pair.push(number_value(port.tx))?;
    pair.push(number_value(port.rx))?;
    Ok(Value::Array(pair))
}

fn ports_value(alloc: Global, ports: &[PortDelay]) -> Result<Value, NoMemory>
    ensures { IfOk result (λ v. view v ≡ list_data port_data ports.now) }
{
    let mut values = Vec::new(alloc);
    for port in ports {
        values.push(port_value(alloc, *port)?)?;
    }
    Ok(Value::Array(values))
}

/// A `device` table.
fn device_value(alloc: Global, device: &Device) -> Result<Value, NoMemory>
    requires { IsName device.now.name }
    ensures { IfOk result (λ v. view v ≡ device_data device.now) }
{
    let mut table = Table::new(alloc);
    put_device(alloc, &mut table, device)?;
    Ok(Value::Table(table))
}

/// Adds the keys of a `device` table.
fn put_device(alloc: Global, table: &mut Table, device: &Device) -> Result<(), NoMemory>
    requires { IsName device.now.name }
    ensures { OnOk result (table_view table.new ≡ with_device device.now (table_view table.old)) }
{
    put_name(alloc, table, "name", device.name.as_slice())?;
    put_text(alloc, table, "mode", mode_text(device.mode))?;
    put_number(alloc, table, "bmin", device.bmin)?;
    put_number(alloc, table, "bmax", device.bmax)?;
    let ports = ports_value(alloc, device.ports.as_slice())?;
    put(alloc, table, "ports", ports)
}

/// The `device` tables.
pub fn devices_value(alloc: Global, plant: &Plant) -> Result<Value, NoMemory>
    requires { MeetsRules plant.now }
    ensures { IfOk result (λ v. view v ≡ list_data device_data plant.now.devices) }
{
    let mut values = Vec::new(alloc);
    for device in plant.devices.as_slice() {
        values.push(device_value(alloc, device)?)?;
    }
    Ok(Value::Array(values))
}

/// The name of a device.
fn name_of(alloc: Global, plant: &Plant, device: DevId) -> Result<Value, NoMemory>
    requires { MeetsRules plant.now }
    ensures { IfOk result (λ v. view v ≡ name_data plant.now.devices device) }
{
    match plant.devices.get(usize::from(device.0)) {
        None => Ok(Value::string(alloc, "")?),
        Some(found) => name_value(alloc, found.name.as_slice()),
    }
}

/// Adds a key with the name of a device.
fn put_name_of(
    alloc: Global,
    table: &mut Table,
    key: &str,
    plant: &Plant,
    device: DevId,
) -> Result<(), NoMemory>
    requires { MeetsRules plant.now }
    ensures { OnOk result
        (table_view table.new ≡ with_member key.now (name_data plant.now.devices device) (table_view table.old)) }
{
    let name = name_of(alloc, plant, device)?;
    put(alloc, table, key, name)
}

/// A `link` table.
fn link_value(alloc: Global, plant: &Plant, link: Link) -> Result<Value, NoMemory>
    requires { MeetsRules plant.now }
    ensures { IfOk result (λ v. view v ≡ link_data plant.now.devices link) }
{
    let mut table = Table::new(alloc);
    put_link(alloc, &mut table, plant, link)?;
    Ok(Value::Table(table))
}

/// Adds the keys of a `link` table.
fn put_link(alloc: Global, table: &mut Table, plant: &Plant, link: Link) -> Result<(), NoMemory>
    requires { MeetsRules plant.now }
    ensures { OnOk result (table_view table.new ≡ with_link plant.now.devices link (table_view table.old)) }
{
    put_name_of(alloc, table, "from", plant, link.a)?;
    put_number(alloc, table, "from_port", u32::from(link.a_port.0))?;
    put_name_of(alloc, table, "to", plant, link.b)?;
    put_number(alloc, table, "to_port", u32::from(link.b_port.0))?;
    put_number(alloc, table, "delay", link.delay)
}

/// The `link` tables.
pub fn links_value(alloc: Global, plant: &Plant) -> Result<Value, NoMemory>
    requires { MeetsRules plant.now }
    ensures { IfOk result (λ v. view v ≡ list_data (link_data plant.now.devices) plant.now.links) }
{
    let mut values = Vec::new(alloc);
    for link in plant.links.as_slice() {
        values.push(link_value(alloc, plant, *link)?)?;
    }
    Ok(Value::Array(values))
}

fn names_value(alloc: Global, plant: &Plant, devices: &[DevId]) -> Result<Value, NoMemory>
    requires { MeetsRules plant.now }
    ensures { IfOk result (λ v. view v ≡ list_data (name_data plant.now.devices) devices.now) }
{
    let mut values = Vec::new(alloc);
    for device in devices {
        values.push(name_of(alloc, plant, *device)?)?;
    }
    Ok(Value::Array(values))
}

/// A `demand` table.
fn demand_value(alloc: Global, plant: &Plant, demand: &Demand) -> Result<Value, NoMemory>
    requires { MeetsRules plant.now }
    ensures value { IfOk result (λ v. view v ≡ demand_data plant.now.devices demand.now) }
    ensures small { OnOk result (demand.now.update < 2 ^ 32) }
{
    let mut table = Table::new(alloc);
    put_demand(alloc, &mut table, plant, demand)?;
    Ok(Value::Table(table))
}

/// Adds the keys of a `demand` table.
fn put_demand(
    alloc: Global,
    table: &mut Table,
    plant: &Plant,
    demand: &Demand,
) -> Result<(), NoMemory>
    requires { MeetsRules plant.now }
    ensures table { OnOk result
        (table_view table.new ≡ with_demand plant.now.devices demand.now (table_view table.old)) }
    ensures small { OnOk result (demand.now.update < 2 ^ 32) }
{
    let update: u32 = demand.update;
    put_number(alloc, table, "frame", u32::from(demand.frame.0))?;
    put_name_of(alloc, table, "from", plant, demand.provider)?;
    let to = names_value(alloc, plant, demand.consumers.as_slice())?;
    put(alloc, table, "to", to)?;
    put_number(alloc, table, "length", u32::from(demand.length))?;
    put_number(alloc, table, "update", update)
}

/// The `demand` tables.
pub fn demands_value(alloc: Global, plant: &Plant) -> Result<Value, NoMemory>
    requires { MeetsRules plant.now }
    ensures value { IfOk result (λ v. view v ≡ list_data (demand_data plant.now.devices) plant.now.demands) }
    ensures small { OnOk result (AllByRecursion (λ (d : Demand). d.update < 2 ^ 32) plant.now.demands) }
{
    let mut values = Vec::new(alloc);
    for demand in plant.demands.as_slice() {
        values.push(demand_value(alloc, plant, demand)?)?;
    }
    Ok(Value::Array(values))
}

/// A `traffic` table.
fn traffic_value(alloc: Global, plant: &Plant, entry: Traffic) -> Result<Value, NoMemory>
    requires { MeetsRules plant.now }
    ensures { IfOk result (λ v. view v ≡ traffic_data plant.now.devices entry) }
{
    let mut table = Table::new(alloc);
    put_traffic(alloc, &mut table, plant, entry)?;
    Ok(Value::Table(table))
}

/// Adds the keys of a `traffic` table.
fn put_traffic(
    alloc: Global,
    table: &mut Table,
    plant: &Plant,
    entry: Traffic,
) -> Result<(), NoMemory>
    requires { MeetsRules plant.now }
    ensures { OnOk result (table_view table.new ≡ with_traffic plant.now.devices entry (table_view table.old)) }
{
    put_name_of(alloc, table, "from", plant, entry.source)?;
    put_name_of(alloc, table, "to", plant, entry.target)?;
    put_text(alloc, table, "class", class_text(entry.class))?;
    put_number(alloc, table, "length", u32::from(entry.length))?;
    put_number(alloc, table, "every", entry.every)?;
    put_number(alloc, table, "count", u32::from(entry.count))
}

/// The `traffic` tables.
pub fn traffics_value(alloc: Global, plant: &Plant) -> Result<Value, NoMemory>
    requires { MeetsRules plant.now }
    ensures { IfOk result (λ v. view v ≡ list_data (traffic_data plant.now.devices) plant.now.traffic) }
{
    let mut values = Vec::new(alloc);
    for entry in plant.traffic.as_slice() {
        values.push(traffic_value(alloc, plant, *entry)?)?;
    }
    Ok(Value::Array(values))
}

/// An `app` table.
fn app_value(alloc: Global, plant: &Plant, app: App) -> Result<Value, NoMemory>
    requires { MeetsRules plant.now }
    ensures value { IfOk result (λ v. view v ≡ app_data plant.now.devices app) }
    ensures small { OnOk result (app.param < 2 ^ 32) }
{
    let mut table = Table::new(alloc);
    put_app(alloc, &mut table, plant, app)?;
    Ok(Value::Table(table))
}

/// Adds the keys of an `app` table.
fn put_app(alloc: Global, table: &mut Table, plant: &Plant, app: App) -> Result<(), NoMemory>
    requires { MeetsRules plant.now }
    ensures { OnOk result (table_view table.new ≡ with_app plant.now.devices app (table_view table.old)) }
{
    put_name_of(alloc, table, "device", plant, app.device)?;
    put_text(alloc, table, "kind", app_text(app.kind))?;
    put_number(alloc, table, "param", app.param)
}

/// The `app` tables.
pub fn apps_value(alloc: Global, plant: &Plant) -> Result<Value, NoMemory>
    requires { MeetsRules plant.now }
    ensures value { IfOk result (λ v. view v ≡ list_data (app_data plant.now.devices) plant.now.apps) }
    ensures small { OnOk result (AllByRecursion (λ (a : App). a.param < 2 ^ 32) plant.now.apps) }
{
    let mut values = Vec::new(alloc);
    for app in plant.apps.as_slice() {
        values.push(app_value(alloc, plant, *app)?)?;
    }
    Ok(Value::Array(values))
}
