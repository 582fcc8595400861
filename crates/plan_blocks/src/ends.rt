//! The last ends of frames by port and phase.

ghost use Rattle.std.specs.Prelude.{◌≡◌, ◌+◌, ◌*◌, ◌<◌, ◌≤◌, IfOk, replicate};
ghost use Rattle.irt_base.specs.Valid.{IsRate};
ghost use Rattle.irt_base.specs.declared.limits.TheConstants.{PHASES};
ghost use Rattle.placement.specs.Tables.{IsPlace};
ghost use Rattle.plan_blocks.specs.Ends.{end_at, Raises, IsOneEnd, IsDueEnd};

use irt_base::cycles::due;
use irt_base::limits::PHASES;
use irt_base::list::Items;
use irt_base::memory::NoMemory;
use irt_base::numbers::{DevId, PortNo};
use placement::gaps::{TABLES, place};
use placement::layout::Rate;
use std::alloc::Global;
use std::marker::Model;

/// When the last frame ends that passes a port in a phase, in ns, or 0 where there is none. A clause sees the ends as
/// a list, and `end_at` says which is which.
#[derive(Drop)]
pub struct LastEnds {
    ends: Items<u32>,
}

impl Model for LastEnds {
    ghost use Rattle.std.specs.Prelude.{◌≡◌, ℕ, List, length};
    ghost use Rattle.placement.specs.declared.gaps.TheConstants.{TABLES};

    ghost Value = { List ℕ };

    ghost view = { λ s. s.ends };

    ghost invariant = { λ s. length s.ends ≡ TABLES };
}

impl LastEnds {
    /// No frame passes any port.
    pub fn new(alloc: Global) -> Result<LastEnds, NoMemory>
        ensures { IfOk result (λ ends. ends ≡ replicate TABLES 0) }
    {
        let ends = vec![in alloc; 0; TABLES]?;
        Ok(LastEnds {
            ends: Items::from_vec(ends),
        })
    }

    /// The last end at a port in a phase, from 0.
    pub fn at(&self, device: DevId, port: PortNo, phase: u16) -> u32
        requires { IsPlace device.0 port.0 phase }
        ensures { result ≡ end_at self.now device.0 port.0 phase }
    {
        self.ends.as_slice()[place(device, port, phase)]
    }

    /// A frame of this rate passes the port, and ends then.
    pub fn raise(&mut self, device: DevId, port: PortNo, rate: Rate, end: u32)
        requires there { IsPlace device.0 port.0 0 }
        requires rate { IsRate rate.ratio rate.phase }
        ensures { Raises (IsDueEnd rate device.0 port.0 end PHASES) self.old self.new }
    {
        for k in 0..PHASES {
            if due(u32::from(k), rate.ratio, rate.phase) {
                self.raise_in(device, port, k, end);
            }
        }
    }

    fn raise_in(&mut self, device: DevId, port: PortNo, phase: u16, end: u32)
        requires { IsPlace device.0 port.0 phase }
        ensures { Raises (IsOneEnd device.0 port.0 phase end) self.old self.new }
    {
        let place = place(device, port, phase);
        let before = self.ends.as_slice()[place];
        self.ends.set(place, before.max(end));
    }
}
