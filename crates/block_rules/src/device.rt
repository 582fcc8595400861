//! The rules of a device's blocks as a whole.

ghost use Rattle.std.specs.Prelude.{◌≡◌, ◌<◌, ◌↔◌, Some, IsTrue, length, slice_get};
ghost use Rattle.irt_base.specs.Valid.{IsWithin};
ghost use Rattle.plan_rules.specs.Headers.{IsHeader, IsOneRange, is_relative};
ghost use Rattle.plan_rules.specs.Places.{IsOf, IsScanOf, place_of};
ghost use Rattle.plan_rules.specs.Plan.{IsPlan};
ghost use Rattle.block_rules.specs.Scanning.{Holds};
ghost use Rattle.block_rules.specs.Repeating.{RepeatsSync, RepeatsGlobal};
ghost use Rattle.block_rules.specs.declared.rules.BlockRule.TheVariants as blocks;

use crate::rules::DeviceRule;
use irt_base::blocks::{Bundle, GlobalBlock, PeriodBlock, PortDelay, SyncBlock};
use irt_base::limits::{MAX_SEND, MAX_TIMEOUT};
use irt_base::numbers::DevId;
use irt_base::plants::{Device, Mode, Plant};
use plan_rules::place::Place;

/// The device itself, where its blocks break the rule.
pub fn device_break(
    rule: DeviceRule,
    plant: &Plant,
    bundles: &[Bundle],
    device: usize,
) -> Option<Place>
    requires plan { IsPlan plant.now bundles.now }
    requires there { device < length bundles.now }
    ensures { IsScanOf (IsOf device) (Holds (blocks.Device rule) plant.now bundles.now) result }
{
    if holds(rule, plant, bundles, device) {
        None
    } else {
        Some(Place::new(DevId(device as u8), 0, 0))
    }
}

/// The blocks of a device.
pub fn bundle_at(bundles: &[Bundle], device: usize) -> &Bundle
    requires { device < length bundles.now }
    ensures { slice_get bundles.now device ≡ Some result.now }
{
    &bundles[device]
}

fn holds(rule: DeviceRule, plant: &Plant, bundles: &[Bundle], device: usize) -> bool
    requires plan { IsPlan plant.now bundles.now }
    requires there { device < length bundles.now }
    ensures { IsTrue result ↔ Holds (blocks.Device rule) plant.now bundles.now (place_of device 0 0) }
{
    let first = bundle_at(bundles, 0);
    let own = bundle_at(bundles, device);
    match rule {
        DeviceRule::Header => is_header(plant, device_at(plant, device), first, own),
        DeviceRule::Range => is_one_range(&first.periods, &own.periods),
    }
}

fn device_at(plant: &Plant, device: usize) -> &Device
    requires { device < length plant.now.devices }
    ensures { slice_get plant.now.devices device ≡ Some result.now }
{
    &plant.devices.as_slice()[device]
}

fn is_one_range(first: &PeriodBlock, own: &PeriodBlock) -> bool
    ensures { IsTrue result ↔ (own.now.first ≡ first.now.first) × (own.now.last ≡ first.now.last) }
{
    own.first == first.first && own.last == first.last
}

fn is_header(plant: &Plant, device: &Device, first: &Bundle, own: &Bundle) -> bool
    ensures { IsTrue result ↔ IsHeader plant.now device.now first.now own.now }
{
    repeats_sync(plant, &first.sync, &own.sync)
        && repeats_global(device, &first.global, &own.global)
        && repeats_mode(device.mode, own.frames.relative)
        && own.periods.ports.len() == device.ports.len()
}

fn repeats_sync(plant: &Plant, first: &SyncBlock, own: &SyncBlock) -> bool
    ensures { IsTrue result ↔ RepeatsSync plant.now first.now own.now }
{
    own.window == plant.window
        && own.factor == u16::from(plant.factor)
        && is_send(own.send)
        && own.send == first.send
        && is_timeout(own.timeout)
        && own.subdomain == first.subdomain
}

fn is_send(send: u32) -> bool
    ensures { IsTrue result ↔ IsWithin 1 MAX_SEND send }
{
    1 <= send && send <= MAX_SEND
}

fn is_timeout(timeout: u16) -> bool
    ensures { IsTrue result ↔ IsWithin 1 MAX_TIMEOUT timeout }
{
    1 <= timeout && timeout <= MAX_TIMEOUT
}

fn repeats_global(device: &Device, first: &GlobalBlock, own: &GlobalBlock) -> bool
    ensures { IsTrue result ↔ RepeatsGlobal device.now first.now own.now }
{
    own.uuid == first.uuid
        && own.bridge == device.bmax
        && are_same(own.ports.as_slice(), device.ports.as_slice())
}

fn are_same(own: &[PortDelay], ports: &[PortDelay]) -> bool
    ensures { IsTrue result ↔ (own.now ≡ ports.now) }
{
    own == ports
}

fn repeats_mode(mode: Mode, relative: bool) -> bool
    ensures { IsTrue result ↔ (relative ≡ is_relative mode) }
{
    match mode {
        Mode::Absolute => !relative,
        Mode::Relative => relative,
    }
}
