//! The rules P2..P18, and the first that a plant fails.

ghost use Rattle.std.specs.Prelude.{◌≡◌, ◌+◌};
ghost use Rattle.plant_rules.specs.Words.{is_within};
ghost use Rattle.irt_topo.specs.Rules.{fits_cycle, first_failing, first_failure};

mod clocks;
mod demands;
mod devices;
pub mod links;
mod traffic;

use irt_base::limits::{MAX_DEVICES, MAX_FACTOR, MAX_WINDOW, MIN_DEVICES};
use irt_base::plants::Plant;

/// The rules that a plant has to meet, beside the shape of its file (P1).
#[derive(Clone, Copy, Debug, PartialEq, Eq)]
pub enum Rule {
    /// P2.
    Factor,
    /// P3.
    Window,
    /// P4: the red and the orange period and the guard fit into a cycle.
    Periods,
    /// P5.
    DeviceCount,
    /// P6, by device.
    DeviceName,
    /// P7, by device.
    DevicePorts,
    /// P8, by device.
    Bridge,
    /// P9, by link: two devices, their ports are there, and no earlier link uses them.
    LinkEnds,
    /// P10, by link: the red period, a hop and the guard fit into a cycle.
    LinkDelay,
    /// P11, by demand.
    DemandFrame,
    /// P12, by demand.
    DemandEnds,
    /// P13, by demand.
    DemandLength,
    /// P14, by demand.
    DemandUpdate,
    /// P15, by traffic entry.
    TrafficEntry,
    /// P16, by app.
    AppDevice,
    /// P17, by device: the words that it consumes, and provides.
    DeviceWords,
    /// P18, by device: the ranges of `sync`, then how well the clock is kept.
    DeviceClock,
}

/// The rules in their order.
pub const ORDER: [Rule; 17] = [
    Rule::Factor,
    Rule::Window,
    Rule::Periods,
    Rule::DeviceCount,
    Rule::DeviceName,
    Rule::DevicePorts,
    Rule::Bridge,
    Rule::LinkEnds,
    Rule::LinkDelay,
    Rule::DemandFrame,
    Rule::DemandEnds,
    Rule::DemandLength,
    Rule::DemandUpdate,
    Rule::TrafficEntry,
    Rule::AppDevice,
    Rule::DeviceWords,
    Rule::DeviceClock,
];

impl Rule {
    ghost use Rattle.std.specs.Prelude.{◌≡◌};
    ghost use Rattle.irt_topo.specs.Rules.{number_of, places, holds, least_failing};

    /// The number by which the rule is named: 2 for P2.
    pub fn number(self) -> u8
        ensures { result ≡ number_of self }
    {
        match self {
            Rule::Factor => 2,
            Rule::Window => 3,
            Rule::Periods => 4,
            Rule::DeviceCount => 5,
            Rule::DeviceName => 6,
            Rule::DevicePorts => 7,
            Rule::Bridge => 8,
            Rule::LinkEnds => 9,
            Rule::LinkDelay => 10,
            Rule::DemandFrame => 11,
            Rule::DemandEnds => 12,
            Rule::DemandLength => 13,
            Rule::DemandUpdate => 14,
            Rule::TrafficEntry => 15,
            Rule::AppDevice => 16,
            Rule::DeviceWords => 17,
            Rule::DeviceClock => 18,
        }
    }

    /// How many indexes the rule has in a plant, from 0.
    fn places(self, plant: &Plant) -> usize
        ensures { result ≡ places self plant.now }
    {
        match self {
            Rule::Factor | Rule::Window | Rule::Periods | Rule::DeviceCount => 1,
            Rule::DeviceName | Rule::DevicePorts | Rule::Bridge => plant.devices.len(),
            Rule::LinkEnds | Rule::LinkDelay => plant.links.len(),
            Rule::DemandFrame | Rule::DemandEnds | Rule::DemandLength | Rule::DemandUpdate => {
                plant.demands.len()
            }
            Rule::TrafficEntry => plant.traffic.len(),
            Rule::AppDevice => plant.apps.len(),
            Rule::DeviceWords | Rule::DeviceClock => plant.devices.len(),
        }
    }

    /// Whether the rule holds at an index.
    fn holds(self, plant: &Plant, index: usize) -> bool
        ensures { result ≡ holds self plant.now index }
    {
        match self {
            Rule::Factor => factor_holds(plant.factor),
            Rule::Window => plant.window <= MAX_WINDOW,
            Rule::Periods => periods_hold(plant),
            Rule::DeviceCount => device_count_holds(plant.devices.len()),
            Rule::DeviceName => devices::device_name_holds(plant, index),
            Rule::DevicePorts => devices::device_ports_hold(plant, index),
            Rule::Bridge => devices::bridge_holds(plant, index),
            Rule::LinkEnds => links::link_ends_hold(plant, index),
            Rule::LinkDelay => links::link_delay_holds(plant, index),
            Rule::DemandFrame => demands::frame_holds(plant, index),
            Rule::DemandEnds => demands::demand_ends_hold(plant, index),
            Rule::DemandLength => demands::length_holds(plant, index),
            Rule::DemandUpdate => demands::update_holds(plant, index),
            Rule::TrafficEntry => traffic::traffic_holds(plant, index),
            Rule::AppDevice => traffic::app_holds(plant, index),
            Rule::DeviceWords => demands::words_hold(plant, index),
            Rule::DeviceClock => clocks::clock_holds(plant, index),
        }
    }

    /// The least index at which the rule fails.
    #[tactic(auto, using(crate::proofs::LeastFrom::least_passes, crate::proofs::LeastFrom::least_fails, crate::proofs::LeastFrom::least_none))]
    fn least_failing(self, plant: &Plant) -> Option<usize>
        ensures { result ≡ least_failing self plant.now }
    {
        for index in 0..self.places(plant) {
            if !self.holds(plant, index) {
                return Some(index);
            }
        }
        None
    }
}

/// The first rule that a plant fails, and its least index.
pub fn first_failure(plant: &Plant) -> Option<(Rule, usize)>
    ensures { result ≡ first_failure plant.now }
{
    first_failing(&ORDER, plant)
}

fn first_failing(rules: &[Rule], plant: &Plant) -> Option<(Rule, usize)>
    ensures { result ≡ first_failing rules.now plant.now }
{
    for rule in rules {
        if let Some(index) = rule.least_failing(plant) {
            return Some((*rule, index));
        }
    }
    None
}

fn factor_holds(factor: u8) -> bool
    ensures { result ≡ is_within 1 MAX_FACTOR factor }
{
    1 <= factor && u16::from(factor) <= MAX_FACTOR
}

fn periods_hold(plant: &Plant) -> bool
    ensures { result ≡ fits_cycle plant.now (plant.now.red_max + plant.now.orange) }
{
    let red_max: u32 = plant.red_max;
    let orange: u32 = plant.orange;
    links::fits_cycle(plant, u64::from(red_max) + u64::from(orange))
}

fn device_count_holds(count: usize) -> bool
    ensures { result ≡ is_within MIN_DEVICES MAX_DEVICES count }
{
    MIN_DEVICES <= count && count <= MAX_DEVICES
}
