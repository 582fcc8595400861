//! The site.

ghost use Rattle.std.specs.Prelude.{◌≡◌, ℕ, List, ◌==◌, IfOk, position, find, slice_get};
ghost use Rattle.std.specs.Prelude.{option_to_list, option_and_then, unwrap_or};
ghost use Rattle.irt_base.specs.Wiring.{peer_of, hop_of};
ghost use Rattle.link_index.specs.Index.{IsIndexOf};
ghost use Rattle.irt_base.specs.declared.blocks.Bundle.{Bundle};
ghost use Rattle.irt_base.specs.declared.plants.Demand.{Demand};
ghost use Rattle.plan_rules.specs.Plan.{IsPlan};
ghost use Rattle.plan_rules.specs.Tree.{demand_of};
ghost use Rattle.plan_rules.specs.World.{is_uncut};
ghost use Rattle.cycle_events.specs.Events.{arrive_at, caused_by_start};
ghost use Rattle.irt_world.specs.Forwardings.{forwardings, number_in};
ghost use Rattle.irt_world.specs.Rows.{is_cut_in, world_row};
ghost use Rattle.net_starts.specs.Released.{IsSmallTime};
ghost use Rattle.net_site.specs.Site.{play_in};

use cycle_events::events::{Event, What};
use deep_copy::DeepCopy;
use irt_base::blocks::Bundle;
use irt_base::memory::NoMemory;
use irt_base::numbers::{DevId, FrameId, PortNo};
use irt_base::plants::{Demand, Plant};
use irt_world::forwardings::Forwardings;
use irt_world::rows::Row;
use link_index::index::LinkIndex;
use std::alloc::Global;
use std::marker::Model;

/// A plant with its links and the entries whose frames a row delays, found by index. A clause sees the plant and these
/// entries.
#[derive(Drop)]
pub struct Site {
    plant: Plant,
    links: LinkIndex,
    delays: Forwardings,
}

impl Model for Site {
    ghost use Rattle.link_index.specs.Index.{IsIndexOf};
    ghost use Rattle.net_site.specs.Site.{SiteState};

    ghost Value = { SiteState };

    ghost view = { λ s. record { plant = s.plant; delays = s.delays } };

    ghost invariant = { λ s. IsIndexOf s.plant s.links };
}

impl Site {
    /// A copy of the plant, with what is found by index.
    ///
    /// # Errors
    /// `NoMemory` where memory runs out.
    pub fn new(alloc: Global, plant: &Plant, bundles: &[Bundle]) -> Result<Site, NoMemory>
        requires { IsPlan plant.now bundles.now }
        ensures { IfOk result (λ site. site ≡
            record { plant = plant.now; delays = forwardings plant.now bundles.now }) }
    {
        Ok(Site {
            plant: plant.deep_copy(alloc)?,
            links: LinkIndex::new(alloc, plant)?,
            delays: Forwardings::new(alloc, plant, bundles)?,
        })
    }

    /// The plant.
    pub fn plant(&self) -> &Plant
        ensures { result.now ≡ self.now.plant }
    {
        &self.plant
    }

    /// Its links by port.
    pub fn links(&self) -> &LinkIndex
        ensures { IsIndexOf self.now.plant result.now }
    {
        &self.links
    }

    /// How long a device takes to send a frame on, in ns, 0 where the row does not say.
    pub fn bridge(&self, row: &Row, device: DevId, frame: FrameId) -> u32
        ensures { result ≡
            unwrap_or (option_and_then (slice_get row.now.bridges) (number_in self.now.delays device.0 frame.0)) 0 }
    {
        match self.delays.number_of(device, frame) {
            None => 0,
            Some(number) => delay_at(row, number),
        }
    }

    /// The number of the demand that asks for a frame. Where none does it is the number of demands.
    pub fn demand_number(&self, frame: FrameId) -> usize
        ensures { slice_get self.now.plant.demands result ≡ demand_of self.now.plant frame.0 }
    {
        place_or_len(self.plant.demands.as_slice(), frame)
    }

    /// The number of the demand that asks for a frame, where one does.
    pub fn demand_place(&self, frame: FrameId) -> Option<usize>
        ensures { result ≡ position (λ (d : Demand). d.frame.0 == frame.0) self.now.plant.demands }
    {
        place_of(self.plant.demands.as_slice(), frame)
    }

    /// The arrival that a start leads to, a hop later in true ns. `None` comes exactly where the port has no link,
    /// or one that is cut.
    pub fn arrival(&self, row: &Row, start: Event) -> Option<Event>
        requires { IsSmallTime 60 start.at }
        ensures { (bundles : List Bundle) (k : ℕ) → option_to_list result ≡ caused_by_start
            (play_in self.now.plant bundles row.now k) start.at start.device.0 start.port.0 start.frame.0 }
    {
        if self.is_uncut(row, start.device, start.port) {
            self.over_link(start)
        } else {
            None
        }
    }

    /// The arrival at the other end of the link, as if it were not cut.
    fn over_link(&self, start: Event) -> Option<Event>
        requires { IsSmallTime 60 start.at }
        ensures { option_to_list result ≡ arrive_at start.at start.frame.0
            (peer_of self.now.plant start.device.0 start.port.0) (hop_of self.now.plant start.device.0 start.port.0) }
    {
        let (device, port) = self.links.peer(start.device, start.port)?;
        let hop = self.links.hop(start.device, start.port)?;
        Some(Event {
            at: start.at + i64::from(hop),
            device,
            port,
            frame: start.frame,
            what: What::Arrive,
        })
    }

    /// Whether a port has no link, or one that is not cut.
    pub fn is_uncut(&self, row: &Row, device: DevId, port: PortNo) -> bool
        ensures { (bundles : List Bundle) (k : ℕ) →
            result ≡ is_uncut self.now.plant (world_row self.now.plant bundles row.now) device.0 port.0 }
    {
        match self.links.link_number(device, port) {
            None => true,
            Some(number) => !is_cut(row, number),
        }
    }
}

fn delay_at(row: &Row, number: usize) -> u32
    ensures { result ≡ unwrap_or (slice_get row.now.bridges number) 0 }
{
    match row.bridges.get(number) {
        None => 0,
        Some(delay) => *delay,
    }
}

fn is_cut(row: &Row, number: usize) -> bool
    ensures { result ≡ is_cut_in row.now number }
{
    row.cuts.iter().any(|cut| usize::from(*cut) == number)
}

/// The place of the first demand of a frame, the number of demands where there is none.
fn place_or_len(demands: &[Demand], frame: FrameId) -> usize
    ensures { slice_get demands.now result ≡ find (λ (d : Demand). d.frame.0 == frame.0) demands.now }
{
    match place_of(demands, frame) {
        None => demands.len(),
        Some(place) => place,
    }
}

fn place_of(demands: &[Demand], frame: FrameId) -> Option<usize>
    ensures { result ≡ position (λ (d : Demand). d.frame.0 == frame.0) demands.now }
{
    demands.iter().position(|d| d.frame.0 == frame.0)
}
