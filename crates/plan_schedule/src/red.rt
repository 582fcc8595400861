//! The end of the red periods of a plan.

ghost use Rattle.std.specs.Prelude.{◌≡◌, ◌≤◌, All, length};
ghost use Rattle.irt_base.specs.Valid.{IsBundle, IsPeriodBlock};
ghost use Rattle.fit_rules.specs.Blocks.{IsGreatest};
ghost use Rattle.fit_rules.specs.Printed.{IsRedEnd};
ghost use Rattle.plan_schedule.specs.Greatest.{IsPortBegin, IsBlockBegin};

use irt_base::blocks::{Bundle, PeriodBlock, Side};
use irt_base::cycles::period;
use irt_base::limits::PHASES;
use irt_base::numbers::PortNo;

/// The end of the red periods: the last begin of orange at any sending port in any phase, in ns of a cycle.
pub fn red_end(bundles: &[Bundle]) -> u32
    requires { All IsBundle bundles.now }
    ensures { IsRedEnd bundles.now result }
{
    let mut end = 0;
    for bundle in bundles {
        end = end.max(block_end(&bundle.periods));
    }
    end
}

/// The same of one device.
fn block_end(block: &PeriodBlock) -> u32
    requires { IsPeriodBlock block.now }
    ensures { IsGreatest (IsBlockBegin block.now) result }
{
    let mut end = 0;
    for index in 0..block.ports.len() {
        end = end.max(port_end(block, PortNo(index as u8 + 1)));
    }
    end
}

/// The same of one port.
fn port_end(block: &PeriodBlock, port: PortNo) -> u32
    requires valid { IsPeriodBlock block.now }
    requires from_one { 1 ≤ port.0 }
    requires there { port.0 ≤ length block.now.ports }
    ensures { IsGreatest (IsPortBegin block.now port.0) result }
{
    let mut end = 0;
    for phase in 0..u32::from(PHASES) {
        end = end.max(period(block, port, phase, Side::Tx).orange);
    }
    end
}
