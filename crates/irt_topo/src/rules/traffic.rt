//! The rules of traffic entries and apps.

ghost use Rattle.std.specs.Prelude.{◌≡◌, ◌==◌, take};
ghost use Rattle.std.specs.List.{list_any};
ghost use Rattle.plant_rules.specs.Words.{is_within};
ghost use Rattle.irt_topo.specs.Rules.{has_two_ends, has_ranges, traffic_holds, app_holds, passes_at};

use super::demands::is_device;
use irt_base::limits::{MAX_COUNT, MAX_EVERY, MAX_PARCEL, MAX_TRAFFIC, MIN_PARCEL};
use irt_base::numbers::DevId;
use irt_base::plants::{App, Plant, Traffic};

/// P15: the index is below 64, the ends are different devices, and the numbers are in range.
pub fn traffic_holds(plant: &Plant, index: usize) -> bool
    ensures { result ≡ passes_at (traffic_holds plant.now) plant.now.traffic index }
{
    match plant.traffic.get(index) {
        None => true,
        Some(entry) => { index < MAX_TRAFFIC && has_two_ends(plant, *entry) && has_ranges(*entry) }
    }
}

fn has_two_ends(plant: &Plant, entry: Traffic) -> bool
    ensures { result ≡ has_two_ends plant.now entry }
{
    is_device(plant, entry.source)
        && is_device(plant, entry.target)
        && !(entry.source.0 == entry.target.0)
}

fn has_ranges(entry: Traffic) -> bool
    ensures { result ≡ has_ranges entry }
{
    is_parcel_length(entry) && is_every(entry) && is_count(entry)
}

fn is_parcel_length(entry: Traffic) -> bool
    ensures { result ≡ is_within MIN_PARCEL MAX_PARCEL entry.length }
{
    MIN_PARCEL <= entry.length && entry.length <= MAX_PARCEL
}

fn is_every(entry: Traffic) -> bool
    ensures { result ≡ is_within 1 MAX_EVERY entry.every }
{
    1 <= entry.every && entry.every <= MAX_EVERY
}

fn is_count(entry: Traffic) -> bool
    ensures { result ≡ is_within 1 MAX_COUNT entry.count }
{
    1 <= entry.count && entry.count <= MAX_COUNT
}

/// P16: the app is on a device, and no earlier one is on it.
pub fn app_holds(plant: &Plant, index: usize) -> bool
    ensures { result ≡ passes_at (app_holds plant.now) plant.now.apps index }
{
    match plant.apps.get(index) {
        None => true,
        Some(app) => {
            is_device(plant, app.device) && !is_taken(plant.apps.as_slice(), index, app.device)
        }
    }
}

fn is_taken(apps: &[App], index: usize, device: DevId) -> bool
    ensures { result ≡ list_any (λ (b : App). b.device.0 == device.0) (take index apps.now) }
{
    apps.iter()
        .take(index)
        .any(|earlier| earlier.device.0 == device.0)
}
