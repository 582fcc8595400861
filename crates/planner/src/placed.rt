//! The frames that are placed.

ghost use Rattle.std.specs.Prelude.{◌≡◌, ◌≤◌, [], IfOk, OnOk, All, length};
ghost use Rattle.irt_base.specs.Valid.{IsRate};
ghost use Rattle.placement.specs.Layouts.{AreLimits, AreSmall};
ghost use Rattle.placement.specs.Records.{AreClearSlots};
ghost use Rattle.planner.specs.Steps.{IsUsable, IsEmpty, IsRecorded};

use crate::ends::{raise_arrivals, raise_sendings};
use crate::frame::placed_plan;
use fit_rules::frame_plan::FramePlan;
use frame_ways::frame_way::FrameWay;
use irt_base::list::Items;
use irt_base::memory::NoMemory;
use placement::gaps::Gaps;
use placement::layout::{Limits, Offsets, Rate};
use placement::record::add_frame;
use plan_blocks::ends::LastEnds;
use std::alloc::Global;

/// The frames that are placed, their slots, and the last ends of what is sent and received, in ns.
#[derive(Drop)]
pub struct Placed {
    pub plans: Items<FramePlan>,
    pub gaps: Gaps,
    pub tx: LastEnds,
    pub rx: LastEnds,
}

/// No frame is placed.
pub fn no_frames(alloc: Global) -> Result<Placed, NoMemory>
    ensures { IfOk result IsEmpty }
{
    Ok(Placed {
        plans: Items::new(alloc),
        gaps: Gaps::new(alloc)?,
        tx: LastEnds::new(alloc)?,
        rx: LastEnds::new(alloc)?,
    })
}

/// Adds a frame with its slots and ends. Want of memory leaves some of them out.
pub fn add_placed(
    alloc: Global,
    limits: Limits,
    way: &FrameWay,
    rate: Rate,
    offsets: &Offsets,
    placed: &mut Placed,
) -> Result<(), NoMemory>
    requires limits { AreLimits limits }
    requires way { IsUsable way.now }
    requires rate { IsRate rate.ratio rate.phase }
    requires small { AreSmall offsets.now }
    requires clear { AreClearSlots rate way.now.layout offsets.now placed.old.gaps }
    ensures { OnOk result (IsRecorded limits way.now rate offsets.now placed.old placed.new) }
{
    let layout = &way.layout;
    add_frame(&mut placed.gaps, layout, rate, offsets)?;
    raise_sendings(&mut placed.tx, limits, layout, rate, offsets);
    raise_arrivals(
        &mut placed.rx,
        limits,
        layout.wire,
        way.arrivals.as_slice(),
        rate,
        offsets,
    );
    let plan = placed_plan(alloc, way, rate, offsets)?;
    placed.plans.push(plan)
}
