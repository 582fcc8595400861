//! The rows of parcels.

ghost use Rattle.std.specs.Prelude.{◌≡◌, ◌^◌, pos, ◌+ℤ◌, ◌≤ℤ◌};
ghost use Rattle.cycle_rows.specs.declared.rows.JournalRow.TheVariants.{Sent as SentRow};
ghost use Rattle.parcel_rules.specs.Loads.{refused_row, came_row};
ghost use Rattle.parcel_rules.specs.Rows.{lost_row};

use cycle_rows::rows::JournalRow;
use irt_base::numbers::{DevId, Ns, PortNo};
use parcel_rules::handed::Handed;
use period_gate::parcels::{Parcel, Sent};

/// The row of a parcel that a port refused in cycle `k`.
pub fn refused_row(k: u32, step: (DevId, PortNo), parcel: Parcel) -> JournalRow
    ensures { result ≡ refused_row k step parcel }
{
    JournalRow::Refused {
        cycle: k,
        device: step.0,
        port: step.1,
        traffic: parcel.traffic,
        serial: parcel.serial,
    }
}

/// The row of a parcel that has come to its target at the beginning of cycle `k`.
pub fn came_row(k: u32, handed: Handed) -> JournalRow
    ensures { result ≡ came_row k handed }
{
    JournalRow::Came {
        cycle: k,
        device: handed.device,
        traffic: handed.parcel.traffic,
        serial: handed.parcel.serial,
    }
}

/// The row of a parcel that a port sent onto a cut link in cycle `k`.
pub fn lost_row(k: u32, step: (DevId, PortNo), sent: Sent) -> JournalRow
    ensures { result ≡ lost_row k step sent }
{
    JournalRow::Lost {
        cycle: k,
        device: step.0,
        port: step.1,
        traffic: sent.parcel.traffic,
        serial: sent.parcel.serial,
    }
}

/// The row of a parcel that a port sent in cycle `k`. `begin` is when the device's cycle begins, in true ns.
pub fn sent_row(k: u32, step: (DevId, PortNo), sent: Sent, begin: Ns) -> JournalRow
    requires early { pos 0 ≤ℤ (begin +ℤ pos (2 ^ 62)) }
    requires late { begin ≤ℤ pos (2 ^ 62) }
    ensures { result ≡ SentRow k step.0 step.1 sent.parcel.traffic sent.parcel.serial
        (begin +ℤ pos sent.start) (begin +ℤ pos sent.end) }
{
    JournalRow::Sent {
        cycle: k,
        device: step.0,
        port: step.1,
        traffic: sent.parcel.traffic,
        serial: sent.parcel.serial,
        start: begin + i64::from(sent.start),
        end: begin + i64::from(sent.end),
    }
}
