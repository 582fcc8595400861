//! What a gate sends of the parcels that are offered.

use irt_base::blocks::Period;
use irt_base::memory::NoMemory;
use irt_base::plants::Class;
use period_gate::gates::Gate;
use period_gate::parcels::{Offered, Parcel, Sent};
use std::alloc::Global;
use std::test::Fail;

const PERIOD: Period = Period {
    red: 0,
    orange: 6720,
    green: 106720,
};

/// The end of the parcel before, and serial, start and end of the next one.
const SENT: [(u32, u32, u32, u32); 2] = [(0, 0, 106720, 113440), (113440, 1, 113440, 120160)];

/// By the limit of a cycle, which of an orange and a green parcel is sent first, and when. An orange head of 1514 bytes
/// takes 123040 ns, a green one of 60 bytes 6720.
const FIRST: [(u32, Option<(Class, u32, u32)>); 4] = [
    (129760, Some((Class::Orange, 6720, 129760))),
    (129759, Some((Class::Green, 106720, 113440))),
    (113440, Some((Class::Green, 106720, 113440))),
    (113439, None),
];

fn parcel(serial: u32, length: u16) -> Parcel {
    Parcel {
        traffic: 0,
        serial,
        length,
    }
}

/// Whether so many parcels of 60 bytes are queued, all of them.
fn queues(gate: &mut Gate, class: Class, count: u32) -> bool {
    for serial in 0..count {
        if gate.offer(class, parcel(serial, 60)) != Offered::Queued {
            return false;
        }
    }
    true
}

/// Whether a green parcel is sent next, with these times.
fn sends_green(gate: &mut Gate, local: u32, serial: u32, start: u32, end: u32) -> bool {
    let sent = Sent {
        class: Class::Green,
        parcel: parcel(serial, 60),
        start,
        end,
    };
    gate.next(local) == Some(sent)
}

/// Two green parcels of 60 bytes behind an orange period of 100000 ns.
#[test]
fn green_follows_the_orange_period(rt: HostRuntime) -> Result<(), Fail> {
    let mut gate = Gate::new(rt.alloc())?;
    assert!(rt; queues(&mut gate, Class::Green, 2));
    assert!(rt; gate.next(0) == None, "before the first begin");
    gate.begin(PERIOD, 998000);
    for (local, serial, start, end) in &SENT {
        assert!(rt;
            sends_green(&mut gate, *local, *serial, *start, *end),
            "{serial}"
        );
    }
    assert!(rt; gate.next(120160) == None);
    Ok(())
}

/// Whether a full class takes no parcel more, whereas the other one does.
fn is_full(gate: &mut Gate) -> bool {
    gate.offer(Class::Orange, parcel(32, 60)) == Offered::Full
        && gate.offer(Class::Green, parcel(0, 60)) == Offered::Queued
        && gate.waiting(Class::Orange) == 32
        && gate.waiting(Class::Green) == 1
}

#[test]
fn a_class_holds_32(rt: HostRuntime) -> Result<(), Fail> {
    let mut gate = Gate::new(rt.alloc())?;
    assert!(rt; queues(&mut gate, Class::Orange, 32));
    assert!(rt; is_full(&mut gate));
    gate.begin(PERIOD, 998000);
    assert!(rt; gate.next(0).is_some());
    assert!(rt; gate.offer(Class::Orange, parcel(33, 60)) == Offered::Queued);
    Ok(())
}

/// What is sent first of a green and an orange parcel.
fn first_of_two(alloc: Global, limit: u32) -> Result<Option<Sent>, NoMemory> {
    let mut gate = Gate::new(alloc)?;
    let _ = gate.offer(Class::Green, parcel(0, 60));
    let _ = gate.offer(Class::Orange, parcel(0, 1514));
    gate.begin(PERIOD, limit);
    Ok(gate.next(0))
}

#[test]
fn a_short_green_parcel_passes_a_long_orange_one(rt: HostRuntime) -> Result<(), Fail> {
    for (limit, first) in &FIRST {
        let sent = first_of_two(rt.alloc(), *limit)?;
        assert!(rt;
            sent.map(|s| (s.class, s.start, s.end)) == *first,
            "at {limit}"
        );
    }
    Ok(())
}
