//! The way of a demand's frame.

ghost use Rattle.std.specs.Prelude.{◌≡◌, ◌<◌, length, IfOk};
ghost use Rattle.irt_base.specs.declared.plants.Demand.{Demand};
ghost use Rattle.irt_route.specs.Routes.{IsRoutesOf};
ghost use Rattle.link_index.specs.Index.{IsIndexOf};
ghost use Rattle.fit_rules.specs.Order.{IsDemandAt, parents_of};
ghost use Rattle.frame_ways.specs.FrameWays.{IsFrameWay};

use crate::entries::base_plan;
use crate::frame_way::FrameWay;
use crate::layout::{anchors_of, arrivals_of, farthest, sendings_of};
use crate::stops::stops_of;
use fit_rules::frame_plan::FramePlan;
use irt_base::cycles::wire;
use irt_base::memory::NoMemory;
use irt_base::plants::Plant;
use irt_route::laws::{chains_of_trees, parents_of_trees};
use irt_route::tables::Routes;
use link_index::index::LinkIndex;
use placement::layout::Layout;
use plan_rules::ways::ways_are_one;
use std::alloc::Global;

/// The way of the frame of a demand, of which the plant has one at this index. Its time is linear in the ports of the
/// plant's devices, and in devices times consumers.
pub fn way_of(
    alloc: Global,
    plant: &Plant,
    index: &LinkIndex,
    routes: &Routes,
    demand: usize,
) -> Result<FrameWay, NoMemory>
    requires routes { IsRoutesOf plant.now routes.now }
    requires index { IsIndexOf plant.now index.now }
    requires there { demand < length plant.now.demands }
    ensures { IfOk result (λ way. (d : Demand) → IsDemandAt plant.now demand d →
        IsFrameWay plant.now (parents_of routes.now demand) d way) }
{
    ways_are_one();
    parents_of_trees();
    chains_of_trees();
    let base = base_plan(alloc, plant, index, routes, demand as u16)?;
    let asked = &plant.demands.as_slice()[demand];
    let stops = stops_of(alloc, plant, index, &base, asked.provider)?;
    let layout = Layout {
        wire: wire(asked.length),
        anchors: anchors_of(alloc, plant, stops.as_slice())?,
        sendings: sendings_of(alloc, stops.as_slice())?,
    };
    let arrivals = arrivals_of(alloc, stops.as_slice())?;
    let FramePlan { frame, entries } = base;
    Ok(FrameWay {
        frame,
        entries,
        layout,
        arrivals,
        hops: farthest(stops.as_slice()),
    })
}
