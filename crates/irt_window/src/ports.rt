//! The ports by which an entry's frame leaves, as bits of `tx`.

ghost use Rattle.std.specs.Prelude.{◌↔◌, ℕ, IsTrue, IsBitSet};
ghost use Rattle.plan_rules.specs.Way.{Leaves};

use irt_base::blocks::Entry;
use irt_base::limits::MAX_PORTS;
use irt_base::numbers::PortNo;

/// Bit 0 says that the frame is consumed, and each port has the bit of its number.
pub const TX_BITS: u8 = MAX_PORTS as u8 + 1;

/// Whether a bit is set.
pub fn has_bit(tx: u8, bit: u8) -> bool
    ensures { IsTrue result ↔ IsBitSet tx bit }
{
    bit < TX_BITS && tx & (1 << bit) != 0
}

/// Whether the frame leaves by a port.
pub fn leaves_by(entry: Entry, port: PortNo) -> bool
    ensures { IsTrue result ↔ Leaves entry port.0 }
{
    1 <= port.0 && has_bit(entry.tx, port.0)
}

/// Whether the frame leaves by some port.
pub fn leaves(entry: Entry) -> bool
    ensures { IsTrue result ↔ ((port : ℕ) × Leaves entry port) }
{
    let tx = entry.tx;
    for port in 1..TX_BITS {
        if has_bit(tx, port) {
            return true;
        }
    }
    false
}
