//! Serials of parcels, their walks, and what links bring.

use irt_base::memory::NoMemory;
use irt_base::numbers::{DevId, PortNo};
use irt_base::plants::{Class, Traffic};
use parcel_loads::flight::Flight;
use parcel_loads::made::{made, makes};
use parcel_loads::room::links_left;
use parcel_loads::steps::step_at;
use period_gate::parcels::{Parcel, Sent};
use std::alloc::Global;
use std::test::Fail;

/// Three parcels every second cycle: cycle 2 has the serials 3, 4, 5.
const TRAFFIC: Traffic = Traffic {
    source: DevId(0),
    target: DevId(2),
    class: Class::Green,
    length: 60,
    every: 2,
    count: 3,
};

/// A cycle, whether it makes parcels, and the serial of the last one up to it.
const SERIALS: [(u32, bool, u32); 4] = [
    (0, true, 2),
    (1, false, 2),
    (2, true, 5),
    (10000, true, 15002),
];

/// The walk goes over the devices 0, 1 and 2, by the ports 1 and 2.
const STEPS: [(DevId, PortNo); 2] = [(DevId(0), PortNo(1)), (DevId(1), PortNo(2))];

/// A device, the port by which a walk leaves it, and how many links are left.
const LEFT: [(u8, Option<PortNo>, usize); 3] = [
    (0, Some(PortNo(1)), 2),
    (1, Some(PortNo(2)), 1),
    (2, None, 0),
];

const PARCEL: Parcel = Parcel {
    traffic: 0,
    serial: 4,
    length: 60,
};

const SENT: [Sent; 1] = [Sent {
    class: Class::Green,
    parcel: PARCEL,
    start: 106720,
    end: 113440,
}];

#[test]
fn serials_go_on(rt: HostRuntime) {
    for (k, due, serial) in &SERIALS {
        let parcel = Parcel {
            traffic: 7,
            serial: *serial,
            length: 60,
        };
        assert!(rt; makes(&TRAFFIC, *k) == *due, "cycle {k}");
        assert!(rt; made(&TRAFFIC, 7, *k, 2).parcel == parcel, "cycle {k}");
    }
}

#[test]
fn a_walk_goes_on(rt: HostRuntime) {
    for (number, port, links) in &LEFT {
        let device = DevId(*number);
        assert!(rt;
            step_at(&STEPS, device).map(|step| step.1) == *port,
            "{number}"
        );
        assert!(rt; links_left(&STEPS, device) == *links, "{number}");
    }
}

/// A flight with a parcel that was brought to device 1.
fn flight(alloc: Global) -> Result<Flight, NoMemory> {
    let mut flight = Flight::new(alloc, 1)?;
    flight.bring(DevId(1), &SENT);
    Ok(flight)
}

/// Whether that parcel alone is in flight.
fn has_one(flight: &Flight) -> bool {
    match flight.get(0) {
        None => false,
        Some(handed) => {
            handed.device == DevId(1) && handed.parcel == PARCEL && flight.len() == 1
        }
    }
}

#[test]
fn links_bring_what_was_sent(rt: HostRuntime) -> Result<(), Fail> {
    let mut flight = flight(rt.alloc())?;
    assert!(rt; has_one(&flight));
    flight.clear();
    assert!(rt; flight.len() == 0);
    Ok(())
}
