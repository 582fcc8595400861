//! A device with four ports. Each receives red frames in 10000..120000 of a cycle and sends parcels from 120000 on, green
//! ones from 220000. A frame of 40 bytes takes 6720 ns, the guard is 2000 ns and the greatest bridge delay 3000 ns.

use block_values::is_bundle;
use irt_base::blocks::{
    Assignment, Bundle, Entry, FrameBlock, GlobalBlock, Period, PeriodBlock, PhasePair, PortDelay,
    PortPeriods, SyncBlock,
};
use irt_base::list::Items;
use irt_base::memory::NoMemory;
use irt_base::numbers::{DevId, FrameId, Ns, PortNo};
use irt_base::plants::Class;
use irt_switch::action::{Action, Cause, Outgoing};
use irt_switch::switch::Switch;
use period_gate::parcels::{Offered, Parcel};
use rtc3_frame::write_rtc3;
use std::alloc::Global;
use std::process::Abort;
use std::test::Fail;

const PERIOD: Period = Period {
    red: 10000,
    orange: 120000,
    green: 220000,
};

fn entry(frame: u16, send_offset: u32, phase: u16, rx_port: u8, tx: u8) -> Entry {
    Entry {
        send_offset,
        data_length: 40,
        ratio: 2,
        phase,
        frame: FrameId(frame),
        rx_port,
        tx,
    }
}

/// The device provides three frames in even cycles, two of them at one offset. It receives one by port 1 for all other
/// ports and itself, one for itself alone, and one in odd cycles.
fn entries(alloc: Global, relative: bool) -> Result<Items<Entry>, NoMemory> {
    let offset = if relative { 0 } else { 100000 };
    let mut entries = Items::new(alloc);
    entries.push(entry(0x0100, 20000, 1, 0, 0x02))?;
    entries.push(entry(0x0102, offset, 1, 1, 0x1D))?;
    entries.push(entry(0x0103, 20000, 1, 0, 0x04))?;
    entries.push(entry(0x0104, 10000, 1, 0, 0x10))?;
    entries.push(entry(0x0105, 0, 1, 1, 0x01))?;
    entries.push(entry(0x0106, 0, 2, 1, 0x01))?;
    Ok(entries)
}

fn port_periods(alloc: Global) -> Result<PortPeriods, NoMemory> {
    let mut assignments = Items::new(alloc);
    assignments.push(Assignment {
        tx: PERIOD,
        rx: PERIOD,
    })?;
    let mut phases = Items::new(alloc);
    for _phase in 0..16 {
        phases.push(PhasePair { tx: 0, rx: 0 })?;
    }
    Ok(PortPeriods {
        assignments,
        phases,
    })
}

fn period_block(alloc: Global) -> Result<PeriodBlock, NoMemory> {
    let mut ports = Items::new(alloc);
    for _port in 0..4 {
        ports.push(port_periods(alloc)?)?;
    }
    Ok(PeriodBlock {
        first: 0x0100,
        last: 0x06FF,
        ports,
    })
}

fn sync_block(alloc: Global) -> Result<SyncBlock, NoMemory> {
    let mut name = Items::new(alloc);
    name.push(b'a')?;
    Ok(SyncBlock {
        subdomain: [9; 16],
        window: 1000,
        send: 4,
        factor: 32,
        timeout: 6,
        takeover: 0,
        startup: 0,
        properties: 0,
        priority1: 0,
        priority2: 0,
        name,
    })
}

fn global_block(alloc: Global) -> Result<GlobalBlock, NoMemory> {
    let mut ports = Items::new(alloc);
    for _port in 0..4 {
        ports.push(PortDelay { tx: 100, rx: 100 })?;
    }
    Ok(GlobalBlock {
        uuid: [7; 16],
        bridge: 3000,
        ports,
    })
}

fn switch(rt: &impl Abort, alloc: Global, relative: bool) -> Result<Switch, NoMemory> {
    let bundle = Bundle {
        sync: sync_block(alloc)?,
        slot: 0,
        subslot: 0x8000,
        global: global_block(alloc)?,
        frames: FrameBlock {
            relative,
            entries: entries(alloc, relative)?,
        },
        periods: period_block(alloc)?,
    };
    assert!(rt; is_bundle(&bundle));
    Switch::new(alloc, &bundle)
}

/// A frame with so many bytes of data.
fn frame_bytes(alloc: Global, frame: u16, length: u16) -> Result<Vec<u8>, NoMemory> {
    let csdu = vec![in alloc; 0u8; usize::from(length)]?;
    let mut bytes = vec![in alloc; 0u8; usize::from(length) + 20]?;
    write_rtc3(
        bytes.as_mut_slice(),
        FrameId(frame),
        DevId(1),
        csdu.as_slice(),
        0,
        0x35,
    );
    Ok(bytes)
}

/// How a frame arrives: in cycle 4, in step or not, with so many bytes of data.
#[derive(Clone, Copy)]
struct Sample {
    in_step: bool,
    local: Ns,
    port: u8,
    frame: u16,
    length: u16,
}

fn sample_at(local: Ns, port: u8, frame: u16, length: u16) -> Sample {
    Sample {
        in_step: true,
        local,
        port,
        frame,
        length,
    }
}

/// What becomes of the frame, where the device takes 2500 ns for it.
fn answer(
    rt: &impl Abort,
    alloc: Global,
    relative: bool,
    sample: Sample,
) -> Result<Action, NoMemory> {
    let bytes = frame_bytes(alloc, sample.frame, sample.length)?;
    let mut switch = switch(rt, alloc, relative)?;
    switch.begin(4, sample.in_step);
    let port = PortNo(sample.port);
    assert!(rt; switch.has_port(port));
    Ok(switch.arrive(sample.local, port, bytes.as_slice(), 2500))
}

#[test]
fn each_cause_comes_first_once(rt: HostRuntime) -> Result<(), Fail> {
    let muted = Sample {
        in_step: false,
        ..sample_at(7999, 2, 0x0107, 40)
    };
    for (sample, cause) in [
        (muted, Cause::NotInStep),
        (sample_at(7999, 2, 0x0107, 40), Cause::UnknownFrame),
        (sample_at(7999, 2, 0x0102, 48), Cause::UnknownFrame),
        (sample_at(7999, 2, 0x0100, 40), Cause::UnknownFrame),
        (sample_at(7999, 2, 0x0106, 40), Cause::UnknownFrame),
        (sample_at(7999, 2, 0x0102, 40), Cause::WrongPort),
        (sample_at(7999, 1, 0x0102, 40), Cause::OutsideRx),
        (sample_at(113281, 1, 0x0102, 40), Cause::OutsideRx),
        (sample_at(i64::MIN, 1, 0x0102, 40), Cause::OutsideRx),
        (sample_at(i64::MAX, 1, 0x0102, 40), Cause::OutsideRx),
        (sample_at(97001, 1, 0x0102, 40), Cause::TooLate),
        (sample_at(113280, 1, 0x0102, 40), Cause::TooLate),
    ] {
        let action = answer(&rt, rt.alloc(), false, sample)?;
        assert_eq!(rt; action, Action::Dropped { cause });
    }
    Ok(())
}

/// Absolute and relative, at the first and the last ns; and one that goes nowhere, at the last.
#[test]
fn frames_go_on(rt: HostRuntime) -> Result<(), Fail> {
    for (relative, local, frame, at, ports) in [
        (false, 8000, 0x0102, 100000, 0x1C),
        (false, 97000, 0x0102, 100000, 0x1C),
        (true, 8000, 0x0102, 10500, 0x1C),
        (true, 113280, 0x0102, 115780, 0x1C),
        (false, 113280, 0x0105, 0, 0),
    ] {
        let action = answer(&rt, rt.alloc(), relative, sample_at(local, 1, frame, 40))?;
        let here = true;
        assert_eq!(rt; action, Action::Forward { at, ports, here });
    }
    Ok(())
}

#[test]
fn releases_by_offset_then_frame(rt: HostRuntime) -> Result<(), Fail> {
    let mut switch = switch(&rt, rt.alloc(), false)?;
    assert_eq!(rt; switch.release(), None, "before the first begin");
    switch.begin(4, true);
    for (frame, at, ports) in [
        (0x0104, 10000, 0x10),
        (0x0100, 20000, 0x02),
        (0x0103, 20000, 0x04),
    ] {
        let frame = FrameId(frame);
        assert_eq!(rt; switch.release(), Some(Outgoing { frame, at, ports }));
    }
    assert_eq!(rt; switch.release(), None);
    switch.begin(5, true);
    assert_eq!(rt; switch.release(), None, "nothing is due");
    let port = PortNo(2);
    let parcel = Parcel {
        traffic: 0,
        serial: 3,
        length: 60,
    };
    assert!(rt; switch.has_port(port));
    assert_eq!(rt; switch.offer(port, Class::Green, parcel), Offered::Queued);
    assert!(rt; switch.has_port(port));
    assert_eq!(rt; switch.waiting(port, Class::Green), 1);
    let times = switch.next(port, 0).map(|sent| (sent.start, sent.end));
    assert_eq!(rt; times, Some((220000, 226720)));
    Ok(())
}
