//! Gap tables by link direction and phase.

ghost use Rattle.std.specs.Prelude.{◌≡◌, ◌≤◌, ◌<◌, ◌+◌, ◌*◌, ℕ, [], All, IfOk, OnOk, length};
ghost use Rattle.gap_table.specs.Slots.{IsSlot, IsClear};
ghost use Rattle.placement.specs.Tables.{IsPlace, place_of, table_at, Adds, IsHere};

use gap_table::slot::Slot;
use gap_table::table::GapTable;
use irt_base::limits::{MAX_DEVICES, MAX_PORTS, PHASES};
use irt_base::memory::NoMemory;
use irt_base::numbers::{DevId, PortNo};
use std::alloc::Global;
use std::marker::Model;

/// A device has a place for port 0, which no link uses, so that ports are places.
pub const ROW: usize = MAX_PORTS + 1;

const PHASE_COUNT: usize = PHASES as usize;

/// The number of tables.
pub const TABLES: usize = MAX_DEVICES * ROW * PHASE_COUNT;

/// Of each link direction the slots of each phase. A clause sees the tables as lists, and `table_at` says which
/// is which.
#[derive(Drop)]
pub struct Gaps {
    tables: Vec<GapTable>,
}

impl Model for Gaps {
    ghost use Rattle.std.specs.Prelude.{◌≡◌, List, length};
    ghost use Rattle.gap_table.specs.declared.slot.Slot.{Slot};
    ghost use Rattle.placement.specs.declared.gaps.TheConstants.{TABLES};

    ghost Value = { List (List Slot) };

    ghost view = { λ s. s.tables.items };

    ghost invariant = { λ s. length s.tables.items ≡ TABLES };
}

impl Gaps {
    /// Tables without slots.
    pub fn new(alloc: Global) -> Result<Gaps, NoMemory>
        ensures { IfOk result (λ gaps. All (λ table. table ≡ []) gaps) }
    {
        let mut tables = Vec::new(alloc);
        for _table in 0..TABLES {
            tables.push(GapTable::new(alloc))?;
        }
        Ok(Gaps { tables })
    }

    /// The slots of a port in a phase, from 0.
    pub fn table(&self, device: DevId, port: PortNo, phase: u16) -> &GapTable
        requires { IsPlace device.0 port.0 phase }
        ensures { result.now ≡ table_at self.now device.0 port.0 phase }
    {
        &self.tables[place(device, port, phase)]
    }

    /// Adds a slot that overlaps none. Want of memory leaves the tables as they were.
    pub fn insert(
        &mut self,
        device: DevId,
        port: PortNo,
        phase: u16,
        slot: Slot,
    ) -> Result<(), NoMemory>
        requires there { IsPlace device.0 port.0 phase }
        requires valid { IsSlot slot }
        requires apart { All (IsClear 0 slot) (table_at self.old device.0 port.0 phase) }
        ensures { OnOk result (Adds (IsHere device.0 port.0 phase slot) self.old self.new) }
    {
        self.tables[place(device, port, phase)].insert(slot)
    }
}

/// The place of a table.
pub fn place(device: DevId, port: PortNo, phase: u16) -> usize
    requires { IsPlace device.0 port.0 phase }
    ensures value { result ≡ place_of device.0 port.0 phase }
    ensures inside { result < TABLES }
{
    (usize::from(device.0) * ROW + usize::from(port.0)) * PHASE_COUNT + usize::from(phase)
}
