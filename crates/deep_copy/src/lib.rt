//! Copies of a plant and of blocks that own their memory.
#![tactic(auto)]

ghost use Rattle.std.specs.Prelude.{◌≡◌, IfOk};

use irt_base::blocks::{Bundle, FrameBlock, GlobalBlock, PeriodBlock, PortPeriods, SyncBlock};
use irt_base::list::Items;
use irt_base::memory::NoMemory;
use irt_base::plants::{Demand, Device, Plant};
use std::alloc::Global;

/// A value that can be copied with all the memory that it owns.
pub trait DeepCopy: Drop {
    /// The same value.
    fn deep_copy(&self, alloc: Global) -> Result<Self, NoMemory>
        ensures { IfOk result (λ copy. copy ≡ self.now) };
}

/// A list of the same values.
pub fn copy_items<T: DeepCopy>(alloc: Global, items: &[T]) -> Result<Items<T>, NoMemory>
    ensures { IfOk result (λ copy. copy ≡ items.now) }
{
    let mut copies = Items::new(alloc);
    for item in items {
        copies.push(item.deep_copy(alloc)?)?;
    }
    Ok(copies)
}

impl DeepCopy for Device {
    fn deep_copy(&self, alloc: Global) -> Result<Device, NoMemory> {
        Ok(Device {
            name: self.name.try_copy(alloc)?,
            mode: self.mode,
            bmin: self.bmin,
            bmax: self.bmax,
            ports: self.ports.try_copy(alloc)?,
        })
    }
}

impl DeepCopy for Demand {
    fn deep_copy(&self, alloc: Global) -> Result<Demand, NoMemory> {
        Ok(Demand {
            frame: self.frame,
            provider: self.provider,
            consumers: self.consumers.try_copy(alloc)?,
            length: self.length,
            update: self.update,
        })
    }
}

impl DeepCopy for Plant {
    fn deep_copy(&self, alloc: Global) -> Result<Plant, NoMemory> {
        Ok(Plant {
            factor: self.factor,
            window: self.window,
            red_max: self.red_max,
            orange: self.orange,
            clocks: self.clocks,
            sync: self.sync,
            devices: copy_items(alloc, self.devices.as_slice())?,
            links: self.links.try_copy(alloc)?,
            demands: copy_items(alloc, self.demands.as_slice())?,
            traffic: self.traffic.try_copy(alloc)?,
            apps: self.apps.try_copy(alloc)?,
        })
    }
}

impl DeepCopy for SyncBlock {
    fn deep_copy(&self, alloc: Global) -> Result<SyncBlock, NoMemory> {
        Ok(SyncBlock {
            subdomain: self.subdomain,
            window: self.window,
            send: self.send,
            factor: self.factor,
            timeout: self.timeout,
            takeover: self.takeover,
            startup: self.startup,
            properties: self.properties,
            priority1: self.priority1,
            priority2: self.priority2,
            name: self.name.try_copy(alloc)?,
        })
    }
}

impl DeepCopy for GlobalBlock {
    fn deep_copy(&self, alloc: Global) -> Result<GlobalBlock, NoMemory> {
        Ok(GlobalBlock {
            uuid: self.uuid,
            bridge: self.bridge,
            ports: self.ports.try_copy(alloc)?,
        })
    }
}

impl DeepCopy for FrameBlock {
    fn deep_copy(&self, alloc: Global) -> Result<FrameBlock, NoMemory> {
        Ok(FrameBlock {
            relative: self.relative,
            entries: self.entries.try_copy(alloc)?,
        })
    }
}

impl DeepCopy for PortPeriods {
    fn deep_copy(&self, alloc: Global) -> Result<PortPeriods, NoMemory> {
        Ok(PortPeriods {
            assignments: self.assignments.try_copy(alloc)?,
            phases: self.phases.try_copy(alloc)?,
        })
    }
}

impl DeepCopy for PeriodBlock {
    fn deep_copy(&self, alloc: Global) -> Result<PeriodBlock, NoMemory> {
        Ok(PeriodBlock {
            first: self.first,
            last: self.last,
            ports: copy_items(alloc, self.ports.as_slice())?,
        })
    }
}

impl DeepCopy for Bundle {
    fn deep_copy(&self, alloc: Global) -> Result<Bundle, NoMemory> {
        Ok(Bundle {
            sync: self.sync.deep_copy(alloc)?,
            slot: self.slot,
            subslot: self.subslot,
            global: self.global.deep_copy(alloc)?,
            frames: self.frames.deep_copy(alloc)?,
            periods: self.periods.deep_copy(alloc)?,
        })
    }
}
