//! How a sync message goes on.

ghost use Rattle.std.specs.Prelude.{◌≡◌};
ghost use Rattle.ptcp_core.specs.Clocks.{relayed};

use crate::messages::{SyncMsg, TIME_END};

/// The message as a device sends it on: the delay of the link by which it came and the time that it
/// stayed are added to its correction, and 1 to its hops. `None` comes exactly where `hops` is 255 or
/// the correction would not stay below `TIME_END`.
pub fn relay(msg: &SyncMsg, line: u32, residence: u64) -> Option<SyncMsg>
    ensures { result ≡ relayed msg.now line residence }
{
    let msg = *msg;
    let correction = msg.correction.checked_add(u64::from(line))?;
    let correction = correction.checked_add(residence)?;
    if msg.hops == u8::MAX || correction >= TIME_END {
        return None;
    }
    Some(SyncMsg {
        hops: msg.hops + 1,
        correction,
        ..msg
    })
}
