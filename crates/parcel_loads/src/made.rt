//! Parcels that are made.

ghost use Rattle.std.specs.Prelude.{◌≡◌, ◌+◌, ◌*◌, ◌/◌, ◌%◌, ◌<◌, ◌≤◌, ◌==◌};
ghost use Rattle.irt_base.specs.declared.limits.TheConstants.{MAX_CYCLES};
ghost use Rattle.parcel_rules.specs.Made.{parcel_of, handed_to};

use irt_base::limits::MAX_CYCLES;
use irt_base::plants::Traffic;
use parcel_rules::handed::Handed;
use period_gate::parcels::Parcel;

/// Whether an entry makes parcels in cycle `k`.
pub fn makes(t: &Traffic, k: u32) -> bool
    requires { 1 ≤ t.now.every }
    ensures { result ≡ (k % t.now.every == 0) }
{
    k % t.every == 0
}

/// The parcel of a place, from 0, among those that an entry makes in cycle `k`, at the entry's source. `number` is the
/// entry's.
pub fn made(t: &Traffic, number: u16, k: u32, place: u8) -> Handed
    requires every { 1 ≤ t.now.every }
    requires cycle { k ≤ MAX_CYCLES }
    ensures { result ≡ handed_to t.now.source (parcel_of number t.now (k / t.now.every * t.now.count + place)) }
{
    let count: u8 = t.count;
    Handed {
        device: t.source,
        parcel: Parcel {
            traffic: number,
            serial: first_serial(k, t.every, count) + u32::from(place),
            length: t.length,
        },
    }
}

/// The serial of the first parcel of a cycle.
fn first_serial(k: u32, every: u32, count: u8) -> u32
    requires every { 1 ≤ every }
    requires cycle { k ≤ MAX_CYCLES }
    ensures value { result ≡ k / every * count }
    ensures small { result ≤ MAX_CYCLES * 255 }
{
    k / every * u32::from(count)
}
