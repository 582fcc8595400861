//! The last ends of placed frames.

ghost use Rattle.std.specs.Prelude.{◌≡◌, ◌≤◌, All};
ghost use Rattle.irt_base.specs.Valid.{IsRate};
ghost use Rattle.placement.specs.Layouts.{AreLimits, AreSmall, IsLayout};
ghost use Rattle.placement.specs.declared.layout.TheConstants.{MAX_TIME};
ghost use Rattle.plan_blocks.specs.Ends.{Raises};
ghost use Rattle.frame_ways.specs.FrameWays.{IsValidArrival};
ghost use Rattle.planner.specs.Ends.{IsSendingEnd, IsArrivalEnd, arrival_end};

use frame_ways::frame_way::Arrival;
use placement::layout::{Layout, Limits, MAX_TIME, Offsets, Rate};
use placement::search::end_of;
use plan_blocks::ends::LastEnds;

/// Raises the last ends by what a placed frame sends.
pub fn raise_sendings(
    ends: &mut LastEnds,
    limits: Limits,
    layout: &Layout,
    rate: Rate,
    offsets: &Offsets,
)
    requires limits { AreLimits limits }
    requires layout { IsLayout layout.now }
    requires rate { IsRate rate.ratio rate.phase }
    requires small { AreSmall offsets.now }
    ensures { Raises (IsSendingEnd limits rate layout.now offsets.now) ends.old ends.new }
{
    for sending in layout.sendings.as_slice() {
        let offset = offsets[usize::from(sending.anchor.0)];
        let end = end_of(limits, layout.wire, *sending, offset);
        ends.raise(sending.device, sending.port, rate, end);
    }
}

/// Raises the last ends by what comes of a placed frame, which occupies a link for `wire` ns.
pub fn raise_arrivals(
    ends: &mut LastEnds,
    limits: Limits,
    wire: u32,
    arrivals: &[Arrival],
    rate: Rate,
    offsets: &Offsets,
)
    requires limits { AreLimits limits }
    requires wire { wire ≤ MAX_TIME }
    requires arrivals { All IsValidArrival arrivals.now }
    requires rate { IsRate rate.ratio rate.phase }
    requires small { AreSmall offsets.now }
    ensures { Raises (IsArrivalEnd limits rate wire arrivals.now offsets.now) ends.old ends.new }
{
    for arrival in arrivals {
        let offset = offsets[usize::from(arrival.anchor.0)];
        let end = arrival_end(limits, wire, *arrival, offset);
        ends.raise(arrival.device, arrival.port, rate, end);
    }
}

fn arrival_end(limits: Limits, wire: u32, arrival: Arrival, offset: u32) -> u32
    requires limits { AreLimits limits }
    requires wire { wire ≤ MAX_TIME }
    requires arrival { IsValidArrival arrival }
    requires small { offset ≤ MAX_TIME }
    ensures { result ≡ arrival_end limits wire arrival offset }
{
    offset + arrival.latest + wire + limits.guard
}
