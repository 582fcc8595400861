//! PTCP messages, and what masters, relays and slaves make of them.

ghost use Rattle.std.specs.Prelude.{◌≤◌, ◌<◌, length};
ghost use Rattle.ptcp_core.specs.Clocks.{IsEvent};
ghost use Rattle.ptcp_core.specs.Messages.{AreTimes};
ghost use Rattle.ptcp_core.specs.declared.messages.TheConstants.{TIME_END};

use ptcp_core::master::Master;
use ptcp_core::messages::{DelayReq, DelayRes, Msg, MsgFault, SyncMsg, TIME_END};
use ptcp_core::read::read_msg;
use ptcp_core::relays::relay;
use ptcp_core::slave::{Slave, SyncEvent, SyncState};
use ptcp_core::write::write_msg;

const SYNC_MSG: SyncMsg = SyncMsg {
    number: 1,
    cycle: 0,
    hops: 0,
    origin: 9000,
    correction: 300,
};

const SYNC_BYTES: [u8; 28] = [
    1, 0, 0, 0, 0, 0, 0, 1, 0, 0, 0, 0, 0, 0, 0, 0, 0, 0, 0x23, 0x28, 0, 0, 0, 0, 0, 0, 1, 0x2C,
];

/// Bytes that are no message, and why.
const REFUSED: [(&[u8], MsgFault); 10] = [
    (&[], MsgFault::Empty),
    (&[0], MsgFault::BadType),
    (&[4, 0, 0, 0], MsgFault::BadType),
    (&[0xFF; 29], MsgFault::BadType),
    (&[1], MsgFault::BadSize),
    (&[3; 21], MsgFault::BadSize),
    (&[2, 1, 0, 0], MsgFault::BadPad),
    (&[1; 28], MsgFault::BadPad),
    // The least time that is too late, and the greatest.
    (
        &[
            1, 0, 0, 0, 0, 0, 0, 0, 0, 0, 0, 0, 0, 0, 0, 0, 0, 0, 0, 0, 0x40, 0, 0, 0, 0, 0, 0, 0,
        ],
        MsgFault::BadTime,
    ),
    (
        &[
            1, 0xFF, 0, 0, 0xFF, 0xFF, 0xFF, 0xFF, 0xFF, 0xFF, 0xFF, 0xFF, 0xFF, 0xFF, 0xFF, 0xFF,
            0xFF, 0xFF, 0xFF, 0xFF, 0xFF, 0xFF, 0xFF, 0xFF, 0xFF, 0xFF, 0xFF, 0xFF,
        ],
        MsgFault::BadTime,
    ),
];

/// Its time is not too late.
const LATE: [u8; 28] = [
    1, 0, 0, 0, 0, 0, 0, 0, 0, 0, 0, 0, 0, 0, 0, 0, 0, 0, 0, 0, 0x3F, 0, 0, 0, 0, 0, 0, 0,
];

/// Whether a message takes so many bytes, begins with these, and is read back.
fn is_spelled(msg: &Msg, size: usize, front: &[u8]) -> bool
    requires times { AreTimes msg.now }
    requires size { size ≤ 28 }
    requires front { length front.now ≤ 28 }
{
    let mut out = [0xFF; 28];
    write_msg(&mut out, msg) == size
        && &out[..front.len()] == front
        && read_msg(&out[..size]) == Ok(*msg)
}

#[test]
fn messages_and_their_bytes(rt: HostRuntime) {
    let request = Msg::Request(DelayReq { number: 0x0102 });
    let response = Msg::Response(DelayRes {
        number: 7,
        t2: TIME_END - 1,
        t3: 3,
    });
    assert!(rt; is_spelled(&Msg::Sync(SYNC_MSG), 28, &SYNC_BYTES));
    assert!(rt; is_spelled(&request, 4, &[2, 0, 1, 2]));
    assert!(rt; is_spelled(&response, 20, &[3, 0, 0, 7, 0x3F]));
}

/// Each refusal at its least and greatest bytes.
#[test]
fn bytes_that_are_no_message(rt: HostRuntime) {
    for (bytes, fault) in &REFUSED {
        let read = read_msg(bytes);
        assert!(rt; read == Err(*fault), "{read:?}");
    }
    assert!(rt; read_msg(&LATE).is_ok());
}

/// The message comes in at this time.
fn heard(received: u64) -> SyncEvent
    requires { received < TIME_END }
    ensures { IsEvent result }
{
    SyncEvent::Sync {
        msg: SYNC_MSG,
        received,
        line: 500,
    }
}

#[test]
fn a_slave_with_send_4_and_timeout_6(rt: HostRuntime) {
    let synced = SyncState::Synced { offset: 200 };
    let mut slave = Slave::new(4, 6);
    assert!(rt; slave.on(SyncEvent::Tick { cycle: 0 }) == SyncState::Muted);
    assert!(rt; slave.on(heard(10000)) == synced);
    assert!(rt;
        slave.on(heard(20000)) == synced,
        "the number is no greater"
    );
    assert!(rt; slave.on(SyncEvent::Tick { cycle: 24 }) == synced);
    assert!(rt; slave.on(SyncEvent::Tick { cycle: 25 }) == SyncState::Muted);
}

#[test]
fn the_master_numbers(rt: HostRuntime) {
    let mut master = Master::new();
    let first = SyncMsg {
        correction: 0,
        ..SYNC_MSG
    };
    assert!(rt; master.next(0, 9000) == first);
    assert!(rt; master.next(4, 9100).number == 2);
    assert!(rt; master.sent() == 2);
}

/// The message after so many hops, with this correction.
fn after(hops: u8, correction: u64) -> SyncMsg {
    SyncMsg {
        hops,
        correction,
        ..SYNC_MSG
    }
}

#[test]
fn devices_relay(rt: HostRuntime) {
    assert!(rt; relay(&SYNC_MSG, 500, 1000) == Some(after(1, 1800)));
    assert!(rt; relay(&after(255, 300), 500, 1000) == None);
    assert!(rt; relay(&SYNC_MSG, 0, TIME_END - 301).is_some());
    assert!(rt; relay(&SYNC_MSG, 0, TIME_END - 300) == None);
    assert!(rt; relay(&SYNC_MSG, u32::MAX, u64::MAX) == None);
}
