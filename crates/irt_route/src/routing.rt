//! The routes of a plant.

ghost use Rattle.std.specs.Prelude.{◌≡◌, ◌<◌, ◌≤◌, IfOk, IfErr, length, map};
ghost use Rattle.plant_rules.specs.Meets.{MeetsRules};
ghost use Rattle.link_index.specs.Index.{peer_in};
ghost use Rattle.irt_route.specs.Routes.{IsRoutesOf, IsRouteFault, IsFaultOf, IsNetwork, IsDemandWithin, AreDemandsWithin, AreTrafficWithin, IsConsumer, AreTrees, AreTrafficWalks, AreReached, IsTrafficFault};
ghost use Rattle.irt_route.specs.Trees.{IsTreeStep, AreParents};

use crate::fault::RouteFault;
use crate::network::{Network, network_of};
use crate::tables::Routes;
use crate::trees::Parents;
use crate::unreached::first_unreached;
use crate::walks::Walk;
use irt_base::limits::{MAX_DEVICES, MAX_TRAFFIC};
use irt_base::list::Items;
use irt_base::memory::NoMemory;
use irt_base::plants::{Demand, Plant, Traffic};
use link_index::index::LinkIndex;
use std::alloc::Global;

/// The routes of a plant. `Unreachable` names the least frame with a consumer to which no walk leads, and
/// its least such consumer; `NoPath` the first traffic entry without a walk, where all consumers have one.
pub fn routes(alloc: Global, plant: &Plant) -> Result<Routes, RouteFault>
    requires { MeetsRules plant.now }
    ensures routes { IfOk result (λ routes. IsRoutesOf plant.now routes) }
    ensures fault { IfErr result (IsRouteFault plant.now) }
{
    let index = LinkIndex::new(alloc, plant)?;
    let network = network_of(alloc, index, plant.devices.len())?;
    routes_of(
        alloc,
        &network,
        plant.demands.as_slice(),
        plant.traffic.as_slice(),
    )
}

fn routes_of(
    alloc: Global,
    network: &Network,
    demands: &[Demand],
    entries: &[Traffic],
) -> Result<Routes, RouteFault>
    requires network { IsNetwork network.now.index network.now.ways }
    requires demands { AreDemandsWithin (length network.now.ways) demands.now }
    requires entries { AreTrafficWithin (length network.now.ways) entries.now }
    requires few { length entries.now ≤ MAX_TRAFFIC }
    ensures trees { IfOk result (λ routes. AreTrees (peer_in network.now.index) demands.now routes.parents) }
    ensures walks { IfOk result (λ routes. AreTrafficWalks (peer_in network.now.index) entries.now routes.walks) }
    ensures reached { IfOk result (λ routes. AreReached (peer_in network.now.index) demands.now) }
    ensures fault { IfErr result (IsFaultOf (peer_in network.now.index) demands.now entries.now) }
{
    if let Some((frame, device)) = first_unreached(network, demands) {
        return Err(RouteFault::Unreachable { frame, device });
    }
    let walks = traffic_walks(alloc, network, entries)?;
    let trees = demand_trees(alloc, network, demands)?;
    Ok(Routes { trees, walks })
}

fn traffic_walks(
    alloc: Global,
    network: &Network,
    entries: &[Traffic],
) -> Result<Items<Walk>, RouteFault>
    requires network { IsNetwork network.now.index network.now.ways }
    requires entries { AreTrafficWithin (length network.now.ways) entries.now }
    requires few { length entries.now ≤ MAX_TRAFFIC }
    ensures walks { IfOk result (λ walks. AreTrafficWalks (peer_in network.now.index) entries.now (map (λ w. w.items) walks)) }
    ensures fault { IfErr result (IsTrafficFault (peer_in network.now.index) entries.now) }
{
    let mut walks = Items::new(alloc);
    for (at, entry) in entries.iter().enumerate() {
        let Some(walk) = network.walk(alloc, entry.source, entry.target)? else {
            return Err(RouteFault::NoPath { traffic: at as u16 });
        };
        walks.push(walk)?;
    }
    Ok(walks)
}

fn demand_trees(
    alloc: Global,
    network: &Network,
    demands: &[Demand],
) -> Result<Items<Parents>, NoMemory>
    requires network { IsNetwork network.now.index network.now.ways }
    requires demands { AreDemandsWithin (length network.now.ways) demands.now }
    ensures { IfOk result (λ trees. AreTrees (peer_in network.now.index) demands.now trees) }
{
    let mut trees = Items::new(alloc);
    for demand in demands {
        trees.push(demand_tree(alloc, network, demand)?)?;
    }
    Ok(trees)
}

fn demand_tree(alloc: Global, network: &Network, demand: &Demand) -> Result<Parents, NoMemory>
    requires network { IsNetwork network.now.index network.now.ways }
    requires within { IsDemandWithin (length network.now.ways) demand.now }
    ensures { IfOk result (AreParents (IsTreeStep (peer_in network.now.index) demand.now.provider.0 (IsConsumer demand.now))) }
{
    let mut parents = [None; MAX_DEVICES];
    for consumer in demand.consumers.as_slice() {
        network.add_walk(alloc, demand.provider, *consumer, &mut parents)?;
    }
    Ok(parents)
}
