//! How many frames start and arrive in a cycle at most.

ghost use Rattle.std.specs.Prelude.{◌≡◌, ◌≤◌, ◌<◌, ◌*◌, All, length, sum_by};
ghost use Rattle.cycle_events.specs.Events.{is_bit, ports_in};
ghost use Rattle.irt_base.specs.Valid.{IsBundle};
ghost use Rattle.irt_base.specs.declared.limits.TheConstants.{MAX_DEMANDS, MAX_DEVICES};
ghost use Rattle.irt_net.specs.Places.{entry_places, plan_places};

use irt_base::blocks::{Bundle, Entry};

const PORTS: [u8; 7] = [1, 2, 3, 4, 5, 6, 7];

/// The most frames that start and arrive in a cycle, by the devices' blocks.
pub fn plan_places(bundles: &[Bundle]) -> usize
    requires valid { All IsBundle bundles.now }
    requires few { length bundles.now ≤ MAX_DEVICES }
    ensures value { result ≡ plan_places bundles.now }
    ensures small { result ≤ MAX_DEVICES * (8 * MAX_DEMANDS) }
{
    let mut most = 0;
    for bundle in bundles {
        most += block_places(bundle.frames.entries.as_slice());
    }
    most
}

fn block_places(entries: &[Entry]) -> usize
    requires { length entries.now ≤ MAX_DEMANDS }
    ensures value { result ≡ sum_by entry_places entries.now }
    ensures small { result ≤ 8 * MAX_DEMANDS }
{
    let mut count = 0;
    for entry in entries {
        count += 1 + port_count(entry.tx);
    }
    count
}

/// The number of ports of a `tx`.
fn port_count(tx: u8) -> usize
    ensures value { result ≡ length (ports_in tx) }
    ensures small { result ≤ 7 }
{
    PORTS.iter().filter(|port| has_port(tx, **port)).count()
}

fn has_port(tx: u8, port: u8) -> bool
    requires { port < 8 }
    ensures { result ≡ is_bit tx port }
{
    tx & (1 << port) != 0
}
