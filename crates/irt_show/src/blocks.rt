//! The blocks of a device file, printed one after the other.

ghost use Rattle.std.specs.Prelude.{◌≡◌, ◌++◌, IfOk, OnOk};
ghost use Rattle.std.specs.List.{flat_map};
ghost use Rattle.irt_show.specs.Show.{assignments_text, bundle_text, entry_line, frames_text, global_text, numbered, period_line, periods_text, phases_line, port_line};

use crate::lines::{
    entry_line, global_line, mode_line, period_line, phases_line, port_line, red_line, sync_line,
};
use irt_base::blocks::{
    Assignment, Bundle, Entry, FrameBlock, GlobalBlock, PeriodBlock, PortDelay, PortPeriods,
};
use irt_base::memory::NoMemory;
use irt_block::output::put_bytes;
use std::alloc::Global;

/// The text of what a device file holds: its lines, each ended by a line feed. Ports count from 1 and
/// assignments from 0; times are in ns.
///
/// # Errors
/// `NoMemory` where memory runs out.
pub fn print_bundle(alloc: Global, bundle: &Bundle) -> Result<Vec<u8>, NoMemory>
    ensures { IfOk result (λ v. v.items ≡ bundle_text bundle.now) }
{
    let mut out = sync_line(alloc, &bundle.sync)?;
    put_global(alloc, &mut out, &bundle.global)?;
    put_frames(alloc, &mut out, &bundle.frames)?;
    put_periods(alloc, &mut out, &bundle.periods)?;
    Ok(out)
}

fn put_global(alloc: Global, out: &mut Vec<u8>, global: &GlobalBlock) -> Result<(), NoMemory>
    ensures { OnOk result (out.new.items ≡ out.old.items ++ global_text global.now) }
{
    let line = global_line(alloc, global.bridge, global.ports.len())?;
    put_bytes(out, &line)?;
    put_ports(alloc, out, global.ports.as_slice())
}

fn put_ports(alloc: Global, out: &mut Vec<u8>, ports: &[PortDelay]) -> Result<(), NoMemory>
    ensures { OnOk result (out.new.items ≡ out.old.items ++ numbered port_line 1 ports.now) }
{
    let mut number = 1;
    for port in ports {
        let line = port_line(alloc, number, *port)?;
        put_bytes(out, &line)?;
        number += 1;
    }
    Ok(())
}

fn put_frames(alloc: Global, out: &mut Vec<u8>, frames: &FrameBlock) -> Result<(), NoMemory>
    ensures { OnOk result (out.new.items ≡ out.old.items ++ frames_text frames.now) }
{
    put_bytes(out, mode_line(frames.relative))?;
    put_entries(alloc, out, frames.entries.as_slice())
}

fn put_entries(alloc: Global, out: &mut Vec<u8>, entries: &[Entry]) -> Result<(), NoMemory>
    ensures { OnOk result (out.new.items ≡ out.old.items ++ flat_map entry_line entries.now) }
{
    for entry in entries {
        let line = entry_line(alloc, *entry)?;
        put_bytes(out, &line)?;
    }
    Ok(())
}

fn put_periods(alloc: Global, out: &mut Vec<u8>, periods: &PeriodBlock) -> Result<(), NoMemory>
    ensures { OnOk result (out.new.items ≡ out.old.items ++ periods_text periods.now) }
{
    let line = red_line(alloc, periods.first, periods.last)?;
    put_bytes(out, &line)?;
    put_all_assignments(alloc, out, periods.ports.as_slice())?;
    put_all_phases(alloc, out, periods.ports.as_slice())
}

fn put_all_assignments(
    alloc: Global,
    out: &mut Vec<u8>,
    ports: &[PortPeriods],
) -> Result<(), NoMemory>
    ensures { OnOk result (out.new.items ≡ out.old.items ++ numbered assignments_text 1 ports.now) }
{
    let mut number = 1;
    for port in ports {
        put_assignments(alloc, out, number, port.assignments.as_slice())?;
        number += 1;
    }
    Ok(())
}

/// The assignments of one port.
fn put_assignments(
    alloc: Global,
    out: &mut Vec<u8>,
    port: usize,
    assignments: &[Assignment],
) -> Result<(), NoMemory>
    ensures { OnOk result (out.new.items ≡ out.old.items ++ numbered (period_line port) 0 assignments.now) }
{
    let mut number = 0;
    for assignment in assignments {
        let line = period_line(alloc, port, number, *assignment)?;
        put_bytes(out, &line)?;
        number += 1;
    }
    Ok(())
}

fn put_all_phases(alloc: Global, out: &mut Vec<u8>, ports: &[PortPeriods]) -> Result<(), NoMemory>
    ensures { OnOk result (out.new.items ≡ out.old.items ++ numbered phases_line 1 ports.now) }
{
    let mut number = 1;
    for port in ports {
        let line = phases_line(alloc, number, port)?;
        put_bytes(out, &line)?;
        number += 1;
    }
    Ok(())
}
