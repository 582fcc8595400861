//! The first consumer to which no walk leads.

ghost use Rattle.std.specs.Prelude.{◌≡◌, ◌<◌, length};
ghost use Rattle.link_index.specs.Index.{peer_in};
ghost use Rattle.irt_route.specs.Routes.{IsNetwork, IsDemandWithin, AreDemandsWithin, IsFirstPlace, IsUnreached, IsUnreachedOf, IsUnreachedOne, is_before, first_of};

use crate::network::Network;
use irt_base::numbers::{DevId, FrameId};
use irt_base::plants::Demand;

/// The least frame with a consumer to which no walk leads, and the least such consumer.
pub fn first_unreached(network: &Network, demands: &[Demand]) -> Option<(FrameId, DevId)>
    requires network { IsNetwork network.now.index network.now.ways }
    requires within { AreDemandsWithin (length network.now.ways) demands.now }
    ensures { IsFirstPlace (IsUnreached (peer_in network.now.index) demands.now) result }
{
    let mut first = None;
    for demand in demands {
        first = first_of(first, unreached_of(network, demand));
    }
    first
}

fn unreached_of(network: &Network, demand: &Demand) -> Option<(FrameId, DevId)>
    requires network { IsNetwork network.now.index network.now.ways }
    requires within { IsDemandWithin (length network.now.ways) demand.now }
    ensures { IsFirstPlace (IsUnreachedOf (peer_in network.now.index) demand.now) result }
{
    let mut first = None;
    for consumer in demand.consumers.as_slice() {
        first = first_of(first, unreached_one(network, demand, *consumer));
    }
    first
}

fn unreached_one(network: &Network, demand: &Demand, consumer: DevId) -> Option<(FrameId, DevId)>
    requires network { IsNetwork network.now.index network.now.ways }
    requires within { consumer.0 < length network.now.ways }
    ensures { IsFirstPlace (IsUnreachedOne (peer_in network.now.index) demand.now consumer) result }
{
    match network.way(demand.provider, consumer) {
        None => Some((demand.frame, consumer)),
        Some(_) => None,
    }
}

fn first_of(
    place: Option<(FrameId, DevId)>,
    other: Option<(FrameId, DevId)>,
) -> Option<(FrameId, DevId)>
    ensures { result ≡ first_of place other }
{
    match (place, other) {
        (None, _) => other,
        (Some(_), None) => place,
        (Some(one), Some(two)) => { if is_before(two, one) { other } else { place } }
    }
}

fn is_before(place: (FrameId, DevId), other: (FrameId, DevId)) -> bool
    ensures { result ≡ is_before place other }
{
    place.0.0 < other.0.0 || (place.0.0 == other.0.0 && place.1.0 < other.1.0)
}
