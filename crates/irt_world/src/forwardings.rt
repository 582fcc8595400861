//! The entries whose frames a row delays, found by device and FrameID.

ghost use Rattle.std.specs.Prelude.{◌≡◌, ◌==◌, ◌++◌, All, IfOk, OnOk, length};
ghost use Rattle.plan_rules.specs.Plan.{IsPlan};
ghost use Rattle.irt_world.specs.Forwardings.{AreInOrder, HasRange, forwardings, forwardings_at, forwarding_of, is_delayed, number_in, place_of};

use irt_base::blocks::{Bundle, Entry};
use irt_base::list::Items;
use irt_base::memory::NoMemory;
use irt_base::numbers::{DevId, FrameId};
use irt_base::plants::{Device, Mode, Plant};
use std::alloc::Global;
use std::marker::Model;

/// The FrameIDs that a place has room for, those of a `u16`.
pub const FRAMES: u32 = 65536;

/// An entry by which a relative device sends on what it receives, and the device's range of bridge delays, in ns.
#[derive(Clone, Copy, PartialEq, Eq)]
pub struct Forwarding {
    pub device: DevId,
    pub frame: FrameId,
    pub bmin: u32,
    pub bmax: u32,
}

/// The forwardings of a plan, by number. They stand in the order of their devices, then of their FrameIDs.
#[derive(Drop)]
pub struct Forwardings {
    items: Items<Forwarding>,
}

impl Model for Forwardings {
    ghost use Rattle.std.specs.Prelude.{List};
    ghost use Rattle.irt_world.specs.Forwardings.{AreInOrder};
    ghost use Rattle.irt_world.specs.declared.forwardings.Forwarding.{Forwarding};

    ghost Value = { List Forwarding };

    ghost view = { λ s. s.items };

    ghost invariant = { λ s. AreInOrder s.items };
}

impl Forwardings {
    /// The forwardings of a plant with its devices' blocks.
    pub fn new(alloc: Global, plant: &Plant, bundles: &[Bundle]) -> Result<Forwardings, NoMemory>
        requires { IsPlan plant.now bundles.now }
        ensures { IfOk result (λ made. made ≡ forwardings plant.now bundles.now) }
    {
        let items = all_of(alloc, plant, bundles)?;
        Ok(Forwardings { items })
    }

    /// How many there are.
    pub fn len(&self) -> usize
        ensures { result ≡ length self.now }
    {
        self.items.len()
    }

    /// Whether there is none.
    pub fn is_empty(&self) -> bool
        ensures { result ≡ (length self.now == 0) }
    {
        self.items.is_empty()
    }

    /// All of them, by number.
    pub fn as_slice(&self) -> &[Forwarding]
        ensures value { result.now ≡ self.now }
        ensures ranges { All HasRange result.now }
    {
        self.items.as_slice()
    }

    /// The number of a device's forwarding of a frame. `None` comes exactly where the device forwards no such frame
    /// in relative time. The time is logarithmic.
    pub fn number_of(&self, device: DevId, frame: FrameId) -> Option<usize>
        ensures { result ≡ number_in self.now device.0 frame.0 }
    {
        number_in(self.items.as_slice(), device, frame)
    }
}

fn number_in(forwardings: &[Forwarding], device: DevId, frame: FrameId) -> Option<usize>
    requires { AreInOrder forwardings.now }
    ensures { result ≡ number_in forwardings.now device.0 frame.0 }
{
    let wanted = place_of(device, frame);
    let number = forwardings.partition_point(|f| place_of(f.device, f.frame) < wanted);
    match forwardings.get(number) {
        Some(found) if place_of(found.device, found.frame) == wanted => Some(number),
        _ => None,
    }
}

/// A device's frames have their places one after the other, before those of the next device.
fn place_of(device: DevId, frame: FrameId) -> u32
    ensures { result ≡ place_of device.0 frame.0 }
{
    u32::from(device.0) * FRAMES + u32::from(frame.0)
}

fn all_of(alloc: Global, plant: &Plant, bundles: &[Bundle]) -> Result<Items<Forwarding>, NoMemory>
    requires { IsPlan plant.now bundles.now }
    ensures { IfOk result (λ made. made ≡ forwardings plant.now bundles.now) }
{
    let mut made = Items::new(alloc);
    let devices = plant.devices.as_slice();
    for number in 0..devices.len() {
        push_at(
            &mut made,
            DevId(number as u8),
            &devices[number],
            &bundles[number],
        )?;
    }
    Ok(made)
}

fn push_at(
    made: &mut Items<Forwarding>,
    number: DevId,
    device: &Device,
    bundle: &Bundle,
) -> Result<(), NoMemory>
    ensures { OnOk result (made.new ≡ made.old ++ forwardings_at number.0 device.now bundle.now) }
{
    for entry in bundle.frames.entries.as_slice() {
        if is_delayed(device, *entry) {
            made.push(forwarding_of(number, device, *entry))?;
        }
    }
    Ok(())
}

fn is_delayed(device: &Device, entry: Entry) -> bool
    ensures { result ≡ is_delayed device.now entry }
{
    let relative = match device.mode {
        Mode::Absolute => false,
        Mode::Relative => true,
    };
    relative && 1 <= entry.rx_port && 2 <= entry.tx
}

fn forwarding_of(number: DevId, device: &Device, entry: Entry) -> Forwarding
    ensures { result ≡ forwarding_of number.0 device.now entry }
{
    Forwarding {
        device: number,
        frame: entry.frame,
        bmin: device.bmin,
        bmax: device.bmax,
    }
}
