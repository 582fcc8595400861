//! The gates of a switch's ports.

ghost use Rattle.std.specs.Prelude.{◌≡◌, ◌≤◌, ℕ, length, replicate, slice_get, Some, All, IfOk};
ghost use Rattle.irt_base.specs.Periods.{period_at};
ghost use Rattle.irt_base.specs.Valid.{IsBundle, IsSyncBlock};
ghost use Rattle.irt_base.specs.declared.blocks.Period.{Period};
ghost use Rattle.period_gate.specs.Gate.{nothing_waiting};
ghost use Rattle.irt_switch.specs.Begin.{AreBegun, HasRoom, begun_gate, parcel_limit};

use irt_base::blocks::{Bundle, Side, SyncBlock};
use irt_base::cycles::{guard, period};
use irt_base::limits::FACTOR_TIME;
use irt_base::memory::NoMemory;
use irt_base::numbers::PortNo;
use period_gate::Gate;
use std::alloc::Global;

/// So many gates at which nothing waits.
pub fn new_gates(alloc: Global, count: usize) -> Result<Vec<Gate>, NoMemory>
    ensures { IfOk result (λ gates. gates.items ≡ replicate count nothing_waiting) }
{
    let mut gates = Vec::with_capacity(alloc, count)?;
    for _port in 0..count {
        gates.push(Gate::new(alloc)?)?;
    }
    Ok(gates)
}

/// Begins a cycle at each gate, with its port's Tx period and the limit of parcels.
pub fn begin_gates(gates: &mut [Gate], bundle: &Bundle, k: u32)
    requires valid { IsBundle bundle.now }
    requires one_each { length gates.old ≡ length bundle.now.periods.ports }
    ensures { AreBegun bundle.now k gates.old gates.new }
{
    let limit = parcel_limit(&bundle.sync);
    for index in 0..gates.len() {
        let tx = period(&bundle.periods, PortNo(index as u8 + 1), k, Side::Tx);
        let gate = &mut gates[index];
        gate.begin(tx, limit);
    }
}

/// The local time, in ns, by which parcels end.
fn parcel_limit(sync: &SyncBlock) -> u32
    requires { IsSyncBlock sync.now }
    ensures { result ≡ parcel_limit sync.now }
{
    u32::from(sync.factor) * FACTOR_TIME - guard(sync.window)
}
