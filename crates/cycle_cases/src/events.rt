//! Events in the order in which they are taken.

use cycle_events::events::{Event, What};
use event_queue::queue::Queue;
use irt_base::memory::NoMemory;
use irt_base::numbers::{DevId, FrameId, PortNo};
use std::alloc::Global;
use std::test::Fail;

/// Time, device, port and frame, in the order in which they are taken. Times may be negative. At one time the lesser
/// device is first, then the lesser port and the lesser FrameID.
const EVENTS: [(i64, u8, u8, u16); 5] = [
    (-800, 1, 1, 0x0101),
    (-800, 1, 1, 0x0102),
    (-800, 1, 2, 0x0100),
    (-800, 2, 1, 0x0101),
    (6720, 0, 1, 0x0100),
];

fn event(at: i64, device: u8, port: u8, frame: u16) -> Event {
    Event {
        at,
        device: DevId(device),
        port: PortNo(port),
        frame: FrameId(frame),
        what: What::Arrive,
    }
}

/// The events, put in another order.
fn filled(alloc: Global) -> Result<Queue, NoMemory> {
    let mut queue = Queue::new(alloc, 5)?;
    queue.push(event(6720, 0, 1, 0x0100));
    queue.push(event(-800, 2, 1, 0x0101));
    queue.push(event(-800, 1, 2, 0x0100));
    queue.push(event(-800, 1, 1, 0x0102));
    queue.push(event(-800, 1, 1, 0x0101));
    Ok(queue)
}

#[test]
fn the_least_is_taken_out_first(rt: HostRuntime) -> Result<(), Fail> {
    let mut queue = filled(rt.alloc())?;
    for (at, device, port, frame) in &EVENTS {
        let wanted = event(*at, *device, *port, *frame);
        assert!(rt; queue.pop() == Some(wanted), "{frame} of {device} at {at}");
    }
    assert!(rt; queue.pop() == None);
    Ok(())
}
