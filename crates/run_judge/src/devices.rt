//! The device of an application, and how many words it sends and receives in a cycle.

ghost use Rattle.std.specs.Prelude.{◌≡◌, ◌<◌, Some, length, slice_get};
ghost use Rattle.irt_base.specs.Valid.{IsBundle};
ghost use Rattle.irt_base.specs.declared.plants.App.{App};
ghost use Rattle.iso_rules.specs.Station.{input_count, output_count};
ghost use Rattle.plan_rules.specs.Plan.{setup_of};

use irt_base::blocks::Bundle;
use irt_base::numbers::DevId;
use plan_check::accepted::Accepted;
use plant_stations::widths::{input_words, output_words};

/// The device of an application. There are blocks for it.
pub fn device_of(accepted: &Accepted, number: usize) -> DevId
    requires { number < length accepted.now.plant.apps }
    ensures device { (x : App) → slice_get accepted.now.plant.apps number ≡ Some x → result ≡ x.device }
    ensures within { result.0 < length accepted.now.bundles }
{
    accepted.facts();
    accepted.plant().apps.as_slice()[number].device
}

/// The words that a device sends in a cycle.
pub fn output_words_of(accepted: &Accepted, device: DevId) -> usize
    requires { device.0 < length accepted.now.bundles }
    ensures { result ≡ output_count (setup_of accepted.now.plant accepted.now.bundles) device.0 }
{
    output_words(bundle_of(accepted, device))
}

/// The words that it receives.
pub fn input_words_of(accepted: &Accepted, device: DevId) -> usize
    requires { device.0 < length accepted.now.bundles }
    ensures { result ≡ input_count (setup_of accepted.now.plant accepted.now.bundles) device.0 }
{
    input_words(bundle_of(accepted, device))
}

/// The blocks of a device.
fn bundle_of(accepted: &Accepted, device: DevId) -> &Bundle
    requires { device.0 < length accepted.now.bundles }
    ensures valid { IsBundle result.now }
    ensures here { slice_get accepted.now.bundles device.0 ≡ Some result.now }
{
    accepted.facts();
    &accepted.bundles()[usize::from(device.0)]
}
