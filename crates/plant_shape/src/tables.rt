//! The tables of a plant file.

ghost use Rattle.std.specs.Prelude.{◌≡◌};
ghost use Rattle.toml.specs.View.{view, table_view};
ghost use Rattle.plant_shape.specs.Shape.{Gives, sync_of, sync_at, sync_sent, device_of, device_at, mode_at, device_named, ports_at, link_of, link_at, link_between, demand_of, demand_at, consumers_at, demand_between, traffic_of, traffic_at, class_at, traffic_between, app_of, app_at, app_name_at};

use crate::choices::{app_name_of, class_of, mode_of};
use crate::fault::ShapeFault;
use crate::keys::TableKind;
use crate::lists::{copy_text, copy_texts, each_numbers, texts_in};
use crate::look::{array, find, known_table, number, optional_number, text_at};
use crate::raw::{
    DEFAULT_SEND, DEFAULT_TIMEOUT, RawApp, RawDemand, RawDevice, RawLink, RawSync, RawTraffic,
};
use irt_base::list::Items;
use irt_base::plants::{AppName, Class, Mode};
use std::alloc::Global;
use toml::{Table, Value};

/// A `sync` table.
#[tactic(auto, unfolding(crate::specs::Shape::sync_of))]
pub fn sync_in(value: &Value) -> Result<RawSync, ShapeFault>
    ensures { Gives result (sync_of (view value.now)) }
{
    match known_table(TableKind::Sync, value) {
        Some(table) => sync_at(table),
        None => Err(ShapeFault::Shape),
    }
}

/// The synchronization with the keys of a table.
fn sync_at(table: &Table) -> Result<RawSync, ShapeFault>
    ensures { Gives result (sync_at (table_view table.now)) }
{
    let send = optional_number(table, "send", DEFAULT_SEND)?;
    let timeout = optional_number(table, "timeout", DEFAULT_TIMEOUT)?;
    sync_sent(send, timeout, table)
}

/// The synchronization with a cycle of sending and a limit of waiting, and the other keys of a table.
fn sync_sent(send: u32, timeout: u32, table: &Table) -> Result<RawSync, ShapeFault>
    ensures { Gives result (sync_sent send timeout (table_view table.now)) }
{
    let drift = optional_number(table, "drift", 0)?;
    let stamp = optional_number(table, "stamp", 0)?;
    let loss = optional_number(table, "loss", 0)?;
    Ok(RawSync {
        send,
        timeout,
        drift,
        stamp,
        loss,
    })
}

/// A `device` table.
#[tactic(auto, unfolding(crate::specs::Shape::device_of))]
pub fn device_in(alloc: Global, value: &Value) -> Result<RawDevice, ShapeFault>
    ensures { Gives result (device_of (view value.now)) }
{
    match known_table(TableKind::Device, value) {
        Some(table) => device_at(alloc, table),
        None => Err(ShapeFault::Shape),
    }
}

/// The device with the keys of a table.
fn device_at(alloc: Global, table: &Table) -> Result<RawDevice, ShapeFault>
    ensures { Gives result (device_at (table_view table.now)) }
{
    let name = text_at(table, "name")?;
    let mode = mode_at(table)?;
    device_named(alloc, name, mode, table)
}

/// The way of forwarding at `mode`.
fn mode_at(table: &Table) -> Result<Mode, ShapeFault>
    ensures { Gives result (mode_at (table_view table.now)) }
{
    match mode_of(text_at(table, "mode")?) {
        Some(mode) => Ok(mode),
        None => Err(ShapeFault::Shape),
    }
}

/// The device of a name and a way of forwarding, with the numbers and ports of a table.
fn device_named(
    alloc: Global,
    name: &str,
    mode: Mode,
    table: &Table,
) -> Result<RawDevice, ShapeFault>
    ensures { Gives result (device_named name.now mode (table_view table.now)) }
{
    let bmin = number(table, "bmin")?;
    let bmax = number(table, "bmax")?;
    let ports = ports_at(alloc, table)?;
    let name = copy_text(alloc, name)?;
    Ok(RawDevice {
        name,
        mode,
        bmin,
        bmax,
        ports,
    })
}

/// The numbers of each port at `ports`.
fn ports_at(alloc: Global, table: &Table) -> Result<Items<Items<u32>>, ShapeFault>
    ensures { Gives result (ports_at (table_view table.now)) }
{
    match array(table, "ports") {
        Some(entries) => each_numbers(alloc, entries),
        None => Err(ShapeFault::Shape),
    }
}

/// A `link` table.
#[tactic(auto, unfolding(crate::specs::Shape::link_of))]
pub fn link_in(alloc: Global, value: &Value) -> Result<RawLink, ShapeFault>
    ensures { Gives result (link_of (view value.now)) }
{
    match known_table(TableKind::Link, value) {
        Some(table) => link_at(alloc, table),
        None => Err(ShapeFault::Shape),
    }
}

/// The link with the keys of a table.
fn link_at(alloc: Global, table: &Table) -> Result<RawLink, ShapeFault>
    ensures { Gives result (link_at (table_view table.now)) }
{
    let from = text_at(table, "from")?;
    let from_port = number(table, "from_port")?;
    let to = text_at(table, "to")?;
    link_between(alloc, from, from_port, to, table)
}

/// The link from a device's port to another device, with the other numbers of a table.
fn link_between(
    alloc: Global,
    from: &str,
    from_port: u32,
    to: &str,
    table: &Table,
) -> Result<RawLink, ShapeFault>
    ensures { Gives result (link_between from.now from_port to.now (table_view table.now)) }
{
    let to_port = number(table, "to_port")?;
    let delay = number(table, "delay")?;
    let (from, to) = copy_texts(alloc, from, to)?;
    Ok(RawLink {
        from,
        from_port,
        to,
        to_port,
        delay,
    })
}

/// A `demand` table.
#[tactic(auto, unfolding(crate::specs::Shape::demand_of))]
pub fn demand_in(alloc: Global, value: &Value) -> Result<RawDemand, ShapeFault>
    ensures { Gives result (demand_of (view value.now)) }
{
    match known_table(TableKind::Demand, value) {
        Some(table) => demand_at(alloc, table),
        None => Err(ShapeFault::Shape),
    }
}

/// The demand with the keys of a table.
fn demand_at(alloc: Global, table: &Table) -> Result<RawDemand, ShapeFault>
    ensures { Gives result (demand_at (table_view table.now)) }
{
    let frame = number(table, "frame")?;
    let from = text_at(table, "from")?;
    let to = consumers_at(alloc, table)?;
    demand_between(alloc, frame, from, to, table)
}

/// The names at `to`.
fn consumers_at(alloc: Global, table: &Table) -> Result<Items<Items<u8>>, ShapeFault>
    ensures { Gives result (consumers_at (table_view table.now)) }
{
    match find(table, "to") {
        Some(consumers) => texts_in(alloc, consumers),
        None => Err(ShapeFault::Shape),
    }
}

/// The demand of a frame from a device to others, with the other numbers of a table.
fn demand_between(
    alloc: Global,
    frame: u32,
    from: &str,
    to: Items<Items<u8>>,
    table: &Table,
) -> Result<RawDemand, ShapeFault>
    ensures { Gives result (demand_between frame from.now to (table_view table.now)) }
{
    let length = number(table, "length")?;
    let update = number(table, "update")?;
    let from = copy_text(alloc, from)?;
    Ok(RawDemand {
        frame,
        from,
        to,
        length,
        update,
    })
}

/// A `traffic` table.
#[tactic(auto, unfolding(crate::specs::Shape::traffic_of))]
pub fn traffic_in(alloc: Global, value: &Value) -> Result<RawTraffic, ShapeFault>
    ensures { Gives result (traffic_of (view value.now)) }
{
    match known_table(TableKind::Traffic, value) {
        Some(table) => traffic_at(alloc, table),
        None => Err(ShapeFault::Shape),
    }
}

/// Traffic with the keys of a table.
fn traffic_at(alloc: Global, table: &Table) -> Result<RawTraffic, ShapeFault>
    ensures { Gives result (traffic_at (table_view table.now)) }
{
    let from = text_at(table, "from")?;
    let to = text_at(table, "to")?;
    let class = class_at(table)?;
    traffic_between(alloc, from, to, class, table)
}

/// The class of parcels at `class`.
fn class_at(table: &Table) -> Result<Class, ShapeFault>
    ensures { Gives result (class_at (table_view table.now)) }
{
    match class_of(text_at(table, "class")?) {
        Some(class) => Ok(class),
        None => Err(ShapeFault::Shape),
    }
}

/// Traffic of a class between two devices, with the numbers of a table.
fn traffic_between(
    alloc: Global,
    from: &str,
    to: &str,
    class: Class,
    table: &Table,
) -> Result<RawTraffic, ShapeFault>
    ensures { Gives result (traffic_between from.now to.now class (table_view table.now)) }
{
    let length = number(table, "length")?;
    let every = number(table, "every")?;
    let count = number(table, "count")?;
    let (from, to) = copy_texts(alloc, from, to)?;
    Ok(RawTraffic {
        from,
        to,
        class,
        length,
        every,
        count,
    })
}

/// An `app` table.
#[tactic(auto, unfolding(crate::specs::Shape::app_of))]
pub fn app_in(alloc: Global, value: &Value) -> Result<RawApp, ShapeFault>
    ensures { Gives result (app_of (view value.now)) }
{
    match known_table(TableKind::App, value) {
        Some(table) => app_at(alloc, table),
        None => Err(ShapeFault::Shape),
    }
}

/// The application with the keys of a table.
fn app_at(alloc: Global, table: &Table) -> Result<RawApp, ShapeFault>
    ensures { Gives result (app_at (table_view table.now)) }
{
    let device = text_at(table, "device")?;
    let kind = app_name_at(table)?;
    let param = optional_number(table, "param", 0)?;
    let device = copy_text(alloc, device)?;
    Ok(RawApp {
        device,
        kind,
        param,
    })
}

/// The application's name at `kind`.
fn app_name_at(table: &Table) -> Result<AppName, ShapeFault>
    ensures { Gives result (app_name_at (table_view table.now)) }
{
    match app_name_of(text_at(table, "kind")?) {
        Some(kind) => Ok(kind),
        None => Err(ShapeFault::Shape),
    }
}
