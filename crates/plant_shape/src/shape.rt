//! A whole plant file.

ghost use Rattle.std.specs.Prelude.{◌≡◌, codes, option_and_then};
ghost use Rattle.toml.specs.Data.{get_member};
ghost use Rattle.toml.specs.View.{array_view, table_view};
ghost use Rattle.plant_shape.specs.Shape.{Gives, IsShapeAnswer, sync_or_default, optional_array, each_item, device_of, link_of, demand_of, traffic_of, app_of, terms_at, terms_timed, clocks_at, plant_at, plant_wired, raw_plant, shape_of};

use crate::choices::clocks_of;
use crate::fault::ShapeFault;
use crate::keys::{TableKind, all_known};
use crate::look::{find, number, text_at};
use crate::raw::{
    DEFAULT_SEND, DEFAULT_TIMEOUT, RawApp, RawDemand, RawDevice, RawLink, RawPlant, RawSync,
    RawTraffic,
};
use crate::tables::{app_in, demand_in, device_in, link_in, sync_in, traffic_in};
use irt_base::list::Items;
use irt_base::plants::Clocks;
use std::alloc::Global;
use toml::Table;
use toml::value::Array;

/// The shape of a plant file: NotToml where the bytes are no TOML document, Shape where it has not the
/// keys, types and choices of a plant.
pub fn read_shape(alloc: Global, bytes: &[u8]) -> Result<RawPlant, ShapeFault>
    ensures { IsShapeAnswer result (shape_of bytes.now) }
{
    let table = match toml::table_from_slice(alloc, bytes) {
        Ok(table) => table,
        Err(fault) => {
            if fault.is_memory() {
                return Err(ShapeFault::NoMemory);
            }
            return Err(ShapeFault::NotToml);
        }
    };
    plant_in(alloc, &table)
}

#[tactic(auto, unfolding(crate::specs::Shape::raw_plant))]
fn plant_in(alloc: Global, table: &Table) -> Result<RawPlant, ShapeFault>
    ensures { Gives result (raw_plant (table_view table.now)) }
{
    if !all_known(TableKind::Top, table) {
        return Err(ShapeFault::Shape);
    }
    let terms = terms_at(table)?;
    plant_at(alloc, terms, table)
}

/// What a plant file says besides its lists.
#[derive(Clone, Copy)]
pub struct Terms {
    pub factor: u32,
    pub window: u32,
    pub red_max: u32,
    pub orange: u32,
    pub clocks: Clocks,
    pub sync: RawSync,
}

/// What a plant file's table says besides its lists.
fn terms_at(table: &Table) -> Result<Terms, ShapeFault>
    ensures { Gives result (terms_at (table_view table.now)) }
{
    let factor = number(table, "factor")?;
    let window = number(table, "window")?;
    let red_max = number(table, "red_max")?;
    terms_timed(factor, window, red_max, table)
}

/// The terms after the first three numbers.
fn terms_timed(factor: u32, window: u32, red_max: u32, table: &Table) -> Result<Terms, ShapeFault>
    ensures { Gives result (terms_timed factor window red_max (table_view table.now)) }
{
    let orange = number(table, "orange")?;
    let clocks = clocks_at(table)?;
    let sync = sync_at(table)?;
    Ok(Terms {
        factor,
        window,
        red_max,
        orange,
        clocks,
        sync,
    })
}

/// Whose clocks are at `clocks`.
fn clocks_at(table: &Table) -> Result<Clocks, ShapeFault>
    ensures { Gives result (clocks_at (table_view table.now)) }
{
    match clocks_of(text_at(table, "clocks")?) {
        Some(clocks) => Ok(clocks),
        None => Err(ShapeFault::Shape),
    }
}

/// The plant of these terms, with the lists of a table.
fn plant_at(alloc: Global, terms: Terms, table: &Table) -> Result<RawPlant, ShapeFault>
    ensures { Gives result (plant_at terms (table_view table.now)) }
{
    let devices = devices_at(alloc, table)?;
    let links = links_at(alloc, table)?;
    let demands = demands_at(alloc, table)?;
    plant_wired(alloc, terms, devices, links, demands, table)
}

/// The plant of these terms and lists, with the other lists of a table.
fn plant_wired(
    alloc: Global,
    terms: Terms,
    devices: Items<RawDevice>,
    links: Items<RawLink>,
    demands: Items<RawDemand>,
    table: &Table,
) -> Result<RawPlant, ShapeFault>
    ensures { Gives result (plant_wired terms devices links demands (table_view table.now)) }
{
    let traffic = traffic_at(alloc, table)?;
    let apps = apps_at(alloc, table)?;
    Ok(RawPlant {
        factor: terms.factor,
        window: terms.window,
        red_max: terms.red_max,
        orange: terms.orange,
        clocks: terms.clocks,
        sync: terms.sync,
        devices,
        links,
        demands,
        traffic,
        apps,
    })
}

fn sync_at(table: &Table) -> Result<RawSync, ShapeFault>
    ensures { Gives result (sync_or_default (get_member (codes "sync") (table_view table.now))) }
{
    match find(table, "sync") {
        Some(value) => sync_in(value),
        None => Ok(RawSync {
            send: DEFAULT_SEND,
            timeout: DEFAULT_TIMEOUT,
            drift: 0,
            stamp: 0,
            loss: 0,
        }),
    }
}

fn devices_at(alloc: Global, table: &Table) -> Result<Items<RawDevice>, ShapeFault>
    ensures { Gives result (option_and_then (each_item device_of) (optional_array (codes "device") (table_view table.now))) }
{
    match find(table, "device") {
        Some(value) => each_device(alloc, value.as_array().ok_or(ShapeFault::Shape)?),
        None => Ok(Items::new(alloc)),
    }
}

fn each_device(alloc: Global, array: &Array) -> Result<Items<RawDevice>, ShapeFault>
    ensures { Gives result (each_item device_of (array_view array.now)) }
{
    let mut devices = Items::new(alloc);
    for value in array {
        devices.push(device_in(alloc, value)?)?;
    }
    Ok(devices)
}

fn links_at(alloc: Global, table: &Table) -> Result<Items<RawLink>, ShapeFault>
    ensures { Gives result (option_and_then (each_item link_of) (optional_array (codes "link") (table_view table.now))) }
{
    match find(table, "link") {
        Some(value) => each_link(alloc, value.as_array().ok_or(ShapeFault::Shape)?),
        None => Ok(Items::new(alloc)),
    }
}

fn each_link(alloc: Global, array: &Array) -> Result<Items<RawLink>, ShapeFault>
    ensures { Gives result (each_item link_of (array_view array.now)) }
{
    let mut links = Items::new(alloc);
    for value in array {
        links.push(link_in(alloc, value)?)?;
    }
    Ok(links)
}

fn demands_at(alloc: Global, table: &Table) -> Result<Items<RawDemand>, ShapeFault>
    ensures { Gives result (option_and_then (each_item demand_of) (optional_array (codes "demand") (table_view table.now))) }
{
    match find(table, "demand") {
        Some(value) => each_demand(alloc, value.as_array().ok_or(ShapeFault::Shape)?),
        None => Ok(Items::new(alloc)),
    }
}

fn each_demand(alloc: Global, array: &Array) -> Result<Items<RawDemand>, ShapeFault>
    ensures { Gives result (each_item demand_of (array_view array.now)) }
{
    let mut demands = Items::new(alloc);
    for value in array {
        demands.push(demand_in(alloc, value)?)?;
    }
    Ok(demands)
}

fn traffic_at(alloc: Global, table: &Table) -> Result<Items<RawTraffic>, ShapeFault>
    ensures { Gives result (option_and_then (each_item traffic_of) (optional_array (codes "traffic") (table_view table.now))) }
{
    match find(table, "traffic") {
        Some(value) => each_traffic(alloc, value.as_array().ok_or(ShapeFault::Shape)?),
        None => Ok(Items::new(alloc)),
    }
}

fn each_traffic(alloc: Global, array: &Array) -> Result<Items<RawTraffic>, ShapeFault>
    ensures { Gives result (each_item traffic_of (array_view array.now)) }
{
    let mut traffic = Items::new(alloc);
    for value in array {
        traffic.push(traffic_in(alloc, value)?)?;
    }
    Ok(traffic)
}

fn apps_at(alloc: Global, table: &Table) -> Result<Items<RawApp>, ShapeFault>
    ensures { Gives result (option_and_then (each_item app_of) (optional_array (codes "app") (table_view table.now))) }
{
    match find(table, "app") {
        Some(value) => each_app(alloc, value.as_array().ok_or(ShapeFault::Shape)?),
        None => Ok(Items::new(alloc)),
    }
}

fn each_app(alloc: Global, array: &Array) -> Result<Items<RawApp>, ShapeFault>
    ensures { Gives result (each_item app_of (array_view array.now)) }
{
    let mut apps = Items::new(alloc);
    for value in array {
        apps.push(app_in(alloc, value)?)?;
    }
    Ok(apps)
}
