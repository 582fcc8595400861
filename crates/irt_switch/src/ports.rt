//! Sets of ports.

ghost use Rattle.std.specs.Prelude.{◌≡◌, ◌<◌};
ghost use Rattle.irt_switch.specs.Ports.{ports_of, is_kept};

use crate::action::PortSet;

/// The bit of `tx` that says that the device keeps the frame.
const KEPT: u8 = 1;

/// The ports of a `tx`.
pub fn ports_of(tx: u8) -> PortSet
    ensures { result ≡ ports_of tx }
{
    tx & !KEPT
}

/// Whether the device keeps the frame.
pub fn is_kept(tx: u8) -> bool
    ensures { result ≡ is_kept tx }
{
    tx & KEPT != 0
}
