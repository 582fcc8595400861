//! The clocks of devices in a cycle.

ghost use Rattle.std.specs.Prelude.{◌≡◌, ◌*◌, ◌^◌, ◌≤◌, pos, ◌+ℤ◌, int_le, ◌&&◌, All};
ghost use Rattle.irt_base.specs.Cycle.{cycle_time};
ghost use Rattle.plan_rules.specs.World.{is_within_window};
ghost use Rattle.cycle_events.specs.Events.{event};
ghost use Rattle.cycle_events.specs.declared.events.What.TheVariants.{Start};
ghost use Rattle.irt_world.specs.Rows.{IsError};
ghost use Rattle.net_begin.specs.Clocks.{begin_of, keeps_step};
ghost use Rattle.net_starts.specs.Released.{IsSmallTime};

use cycle_events::events::{Event, What};
use irt_base::cycles::cycle_length;
use irt_base::numbers::{DevId, FrameId, Ns, PortNo};
use irt_base::plants::Plant;
use irt_world::rows::Row;

/// Whether a device is in step in a cycle with this row.
pub fn keeps_step(plant: &Plant, row: &Row, device: DevId) -> bool
    ensures { result ≡ keeps_step plant.now row.now device.0 }
{
    is_within(row.error(device), plant.window)
}

/// An event of no port and no frame at a device, at the time in true ns at which the device's cycle begins.
pub fn begin_event(plant: &Plant, row: &Row, k: u32, device: DevId) -> Event
    requires { All IsError row.now.errors }
    ensures value { result ≡ event (begin_of plant.now row.now k device.0) device.0 0 0 Start }
    ensures small { IsSmallTime 60 result.at }
{
    Event {
        at: begin_at(plant, row, k, device),
        device,
        port: PortNo(0),
        frame: FrameId(0),
        what: What::Start,
    }
}

fn begin_at(plant: &Plant, row: &Row, k: u32, device: DevId) -> Ns
    requires { All IsError row.now.errors }
    ensures value { result ≡ begin_of plant.now row.now k device.0 }
    ensures small { IsSmallTime 60 result }
{
    shifted(cycle_begin(k, plant.factor), row.error(device))
}

/// When a cycle begins, in true ns.
fn cycle_begin(k: u32, factor: u8) -> u64
    ensures value { result ≡ k * cycle_time factor }
    ensures small { result ≤ 2 ^ 56 }
{
    u64::from(k) * u64::from(cycle_length(factor))
}

/// The same by a clock that is off by `error`.
fn shifted(begin: u64, error: Ns) -> Ns
    requires begin { begin ≤ 2 ^ 56 }
    requires error { IsError error }
    ensures value { result ≡ (pos begin +ℤ error) }
    ensures small { IsSmallTime 60 result }
{
    begin as i64 + error
}

fn is_within(error: Ns, window: u32) -> bool
    ensures { result ≡ is_within_window error (pos window) }
{
    -i64::from(window) <= error && error <= i64::from(window)
}
