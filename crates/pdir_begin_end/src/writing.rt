//! Writing a block.

ghost use Rattle.std.specs.Prelude.{◌≡◌, ◌<◌, ◌^◌, ◌++◌, length, All, IfOk, OnOk};
ghost use Rattle.std.specs.List.{flat_map};
ghost use Rattle.irt_base.specs.Valid.{IsPeriodBlock};
ghost use Rattle.pdir_begin_end.specs.Periods.{period_bytes, assignment_bytes, phase_bytes, port_bytes, periods_bytes};

use crate::reading::PERIODS;
use irt_base::blocks::{Assignment, Period, PeriodBlock, PhasePair, PortPeriods};
use irt_base::limits::PHASES;
use irt_base::memory::NoMemory;
use irt_block::output::{begin_block, close_block, put_bytes, put_u16, put_u32};
use std::alloc::Global;

fn put_period(out: &mut Vec<u8>, period: Period) -> Result<(), NoMemory>
    ensures { OnOk result (out.new.items ≡ out.old.items ++ period_bytes period) }
{
    put_u32(out, period.red)?;
    put_u32(out, period.orange)?;
    put_u32(out, period.green)
}

fn put_assignments(out: &mut Vec<u8>, assignments: &[Assignment]) -> Result<(), NoMemory>
    ensures { OnOk result (out.new.items ≡ out.old.items ++ flat_map assignment_bytes assignments.now) }
{
    for item in assignments {
        put_period(out, item.tx)?;
        put_period(out, item.rx)?;
    }
    Ok(())
}

fn put_phases(out: &mut Vec<u8>, phases: &[PhasePair]) -> Result<(), NoMemory>
    ensures { OnOk result (out.new.items ≡ out.old.items ++ flat_map phase_bytes phases.now) }
{
    for item in phases {
        put_u16(out, item.tx)?;
        put_u16(out, item.rx)?;
    }
    Ok(())
}

fn put_port(out: &mut Vec<u8>, port: &PortPeriods) -> Result<(), NoMemory>
    requires { length port.now.assignments < 2 ^ 32 }
    ensures { OnOk result (out.new.items ≡ out.old.items ++ port_bytes port.now) }
{
    put_u32(out, port.assignments.len() as u32)?;
    put_assignments(out, port.assignments.as_slice())?;
    put_u32(out, u32::from(PHASES))?;
    put_phases(out, port.phases.as_slice())
}

fn put_ports(out: &mut Vec<u8>, ports: &[PortPeriods]) -> Result<(), NoMemory>
    requires { All (λ p. length p.assignments < 2 ^ 32) ports.now }
    ensures { OnOk result (out.new.items ≡ out.old.items ++ flat_map port_bytes ports.now) }
{
    for port in ports {
        put_port(out, port)?;
    }
    Ok(())
}

/// The one spelling of valid periods.
pub fn write_periods(alloc: Global, value: &PeriodBlock) -> Result<Vec<u8>, NoMemory>
    requires { IsPeriodBlock value.now }
    ensures { IfOk result (λ v. v.items ≡ periods_bytes value.now) }
{
    let mut out = begin_block(alloc)?;
    put_bytes(&mut out, &[0; 2])?;
    put_u16(&mut out, value.first)?;
    put_u16(&mut out, value.last)?;
    put_u32(&mut out, value.ports.len() as u32)?;
    put_ports(&mut out, value.ports.as_slice())?;
    close_block(&mut out, PERIODS);
    Ok(out)
}
