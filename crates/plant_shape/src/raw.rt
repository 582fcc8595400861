//! A plant as its file says it: numbers of 32 bits, and devices by name. Keys that were absent have
//! their values filled in.

use irt_base::list::Items;
use irt_base::plants::{AppName, Class, Clocks, Mode};

/// The `sync` table.
#[derive(Clone, Copy, PartialEq, Eq)]
pub struct RawSync {
    pub send: u32,
    pub timeout: u32,
    pub drift: u32,
    pub stamp: u32,
    pub loss: u32,
}

/// A `device` table. An entry of `ports` has the numbers of its array, however many.
#[derive(Drop)]
pub struct RawDevice {
    pub name: Items<u8>,
    pub mode: Mode,
    pub bmin: u32,
    pub bmax: u32,
    pub ports: Items<Items<u32>>,
}

/// A `link` table.
#[derive(Drop)]
pub struct RawLink {
    pub from: Items<u8>,
    pub from_port: u32,
    pub to: Items<u8>,
    pub to_port: u32,
    pub delay: u32,
}

/// A `demand` table.
#[derive(Drop)]
pub struct RawDemand {
    pub frame: u32,
    pub from: Items<u8>,
    pub to: Items<Items<u8>>,
    pub length: u32,
    pub update: u32,
}

/// A `traffic` table.
#[derive(Drop)]
pub struct RawTraffic {
    pub from: Items<u8>,
    pub to: Items<u8>,
    pub class: Class,
    pub length: u32,
    pub every: u32,
    pub count: u32,
}

/// An `app` table.
#[derive(Drop)]
pub struct RawApp {
    pub device: Items<u8>,
    pub kind: AppName,
    pub param: u32,
}

/// A whole plant file.
#[derive(Drop)]
pub struct RawPlant {
    pub factor: u32,
    pub window: u32,
    pub red_max: u32,
    pub orange: u32,
    pub clocks: Clocks,
    pub sync: RawSync,
    pub devices: Items<RawDevice>,
    pub links: Items<RawLink>,
    pub demands: Items<RawDemand>,
    pub traffic: Items<RawTraffic>,
    pub apps: Items<RawApp>,
}

/// What `send` and `timeout` are where the file does not say; the other keys of `sync` are then 0.
pub const DEFAULT_SEND: u32 = 32;

pub const DEFAULT_TIMEOUT: u32 = 6;
