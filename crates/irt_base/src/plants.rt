//! A plant: devices, links, and what is to be sent.

use crate::blocks::PortDelay;
use crate::list::Items;
use crate::numbers::{DevId, FrameId, PortNo};

/// Whose clocks the devices follow.
#[derive(Clone, Copy, PartialEq, Eq)]
pub enum Clocks {
    /// Errors come from a table.
    World,
    /// Errors come from PTCP.
    Ptcp,
}

/// How a device forwards.
#[derive(Clone, Copy, PartialEq, Eq)]
pub enum Mode {
    /// At its own FrameSendOffset.
    Absolute,
    /// A bridge delay after the arrival.
    Relative,
}

/// The class of a parcel: orange goes before green.
#[derive(Clone, Copy, Debug, PartialEq, Eq)]
pub enum Class {
    Orange,
    Green,
}

/// What an application does.
#[derive(Clone, Copy, PartialEq, Eq)]
pub enum AppName {
    Copy,
    Counter,
    Follow,
    Limit,
}

/// How clocks are kept by PTCP.
#[derive(Clone, Copy, PartialEq, Eq)]
pub struct SyncPlan {
    /// Cycles between two sync messages.
    pub send: u32,
    /// After how many lost ones a device mutes.
    pub timeout: u16,
    /// By how many ns a clock drifts in a cycle.
    pub drift: u32,
    /// By how many ns a time stamp may be wrong.
    pub stamp: u32,
    /// One message in so many is lost on a link, 0 for none.
    pub loss: u32,
}

/// A device. Its ports count from 1.
#[derive(Drop)]
pub struct Device {
    pub name: Items<u8>,
    pub mode: Mode,
    /// Least and greatest bridge delay, in ns.
    pub bmin: u32,
    pub bmax: u32,
    pub ports: Items<PortDelay>,
}

/// A link between two ports, with its delay in ns. Links count from 0.
#[derive(Clone, Copy, Debug, PartialEq, Eq)]
pub struct Link {
    pub a: DevId,
    pub a_port: PortNo,
    pub b: DevId,
    pub b_port: PortNo,
    pub delay: u32,
}

/// A frame that one device provides to others.
#[derive(Drop)]
pub struct Demand {
    pub frame: FrameId,
    pub provider: DevId,
    pub consumers: Items<DevId>,
    /// The bytes of data.
    pub length: u16,
    /// Within how many ns it is to come again.
    pub update: u32,
}

/// Parcels from one device to another.
#[derive(Clone, Copy, PartialEq, Eq)]
pub struct Traffic {
    pub source: DevId,
    pub target: DevId,
    pub class: Class,
    /// The bytes of a parcel.
    pub length: u16,
    /// Parcels are made in each cycle that is a multiple of this.
    pub every: u32,
    /// How many.
    pub count: u8,
}

/// The application of a device.
#[derive(Clone, Copy, PartialEq, Eq)]
pub struct App {
    pub device: DevId,
    pub kind: AppName,
    pub param: u32,
}

/// A whole plant.
#[derive(Drop)]
pub struct Plant {
    /// Send clock factor, in units of 31.25 microseconds.
    pub factor: u8,
    /// Within how many ns a device is in step.
    pub window: u32,
    /// The greatest end of a red period, in ns.
    pub red_max: u32,
    /// The length of an orange period, in ns.
    pub orange: u32,
    pub clocks: Clocks,
    pub sync: SyncPlan,
    pub devices: Items<Device>,
    pub links: Items<Link>,
    pub demands: Items<Demand>,
    pub traffic: Items<Traffic>,
    pub apps: Items<App>,
}
