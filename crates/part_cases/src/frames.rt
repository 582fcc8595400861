//! Frames with real-time data, written and read.

ghost use Rattle.std.specs.Prelude.{◌≡◌, ◌≤◌, ◌<◌, IfOk, length};

use irt_base::memory::NoMemory;
use irt_base::numbers::{DevId, FrameId};
use rtc3_frame::fault::FrameFault;
use rtc3_frame::frames::Frames;
use rtc3_frame::read::read_rtc3;
use rtc3_frame::write::write_rtc3;
use std::alloc::Global;
use std::test::Fail;

/// Its last byte is a good IOPS.
const CSDU: [u8; 40] = [
    0, 0, 0, 0, 0, 0, 0, 0, 0, 0, 0, 0, 0, 0, 0, 0, 0, 0, 0, 0, 0, 0, 0, 0, 0, 0, 0, 0, 0, 0, 0, 0,
    0, 0, 0, 0, 0, 0, 0, 0x80,
];

/// The frame of device 0 in cycle 3 at factor 32.
const FRAME: [u8; 60] = [
    3, 0, 0, 0, 1, 0, 2, 0, 0, 0, 0, 0, 0x88, 0x92, 1, 0, 0, 0, 0, 0, 0, 0, 0, 0, 0, 0, 0, 0, 0, 0,
    0, 0, 0, 0, 0, 0, 0, 0, 0, 0, 0, 0, 0, 0, 0, 0, 0, 0, 0, 0, 0, 0, 0, 0, 0, 0x80, 0x00, 0x60,
    0x35, 0x00,
];

/// A number of bytes, and why they are no frame.
const LENGTHS: [(usize, Option<FrameFault>); 8] = [
    (0, Some(FrameFault::Short)),
    (59, Some(FrameFault::Short)),
    (60, None),
    (61, Some(FrameFault::BadLength)),
    (67, Some(FrameFault::BadLength)),
    (68, None),
    (1460, None),
    (1461, Some(FrameFault::BadLength)),
];

/// A byte at a place, and why the frame with it is none.
const BYTES: [(usize, u8, Option<FrameFault>); 5] = [
    (13, 0x93, Some(FrameFault::BadEthertype)),
    (14, 0x00, Some(FrameFault::BadFrameId)),
    (14, 0x0F, None),
    (14, 0x10, Some(FrameFault::BadFrameId)),
    (59, 0x01, Some(FrameFault::BadTransfer)),
];

fn written() -> [u8; 60] {
    let mut out = [0xFF; 60];
    write_rtc3(&mut out, FrameId(0x0100), DevId(0), &CSDU, 96, 0x35);
    out
}

/// Whether the frame is read as it was written.
fn is_read_back(bytes: &[u8]) -> bool {
    match read_rtc3(bytes) {
        Err(_) => false,
        Ok(read) => {
            read.frame == FrameId(0x0100)
                && read.csdu == CSDU.as_slice()
                && read.counter == 96
                && read.status == 0x35
        }
    }
}

#[test]
fn a_frame_on_the_wire(rt: HostRuntime) {
    let bytes = written();
    assert!(rt; bytes == FRAME);
    assert!(rt; is_read_back(&bytes));
}

/// As many bytes as no frame has, with the head of a frame.
fn longest(alloc: Global) -> Result<Vec<u8>, NoMemory>
    ensures { IfOk result (λ bytes. length bytes.items ≡ 1461) }
{
    let mut bytes = vec![in alloc; 0u8; 1461]?;
    bytes[12] = 0x88;
    bytes[13] = 0x92;
    bytes[14] = 0x01;
    Ok(bytes)
}

#[test]
fn lengths_that_are_refused(rt: HostRuntime) -> Result<(), Fail> {
    let bytes = longest(rt.alloc())?;
    for (count, fault) in &LENGTHS {
        assert!(rt; *count <= bytes.len());
        assert!(rt; read_rtc3(&bytes[..*count]).err() == *fault, "at {count}");
    }
    Ok(())
}

/// Why the least bytes are no frame, with a byte at a place.
fn fault_with(bytes: &[u8], place: usize, byte: u8) -> Option<FrameFault>
    requires count { 60 ≤ length bytes.now }
    requires inside { place < 60 }
{
    let mut frame = [0; 60];
    frame.copy_from_slice(&bytes[..60]);
    frame[place] = byte;
    read_rtc3(&frame).err()
}

#[test]
fn fields_that_are_refused(rt: HostRuntime) -> Result<(), Fail> {
    let bytes = longest(rt.alloc())?;
    for (place, byte, fault) in &BYTES {
        assert!(rt; *place < 60);
        let found = fault_with(bytes.as_slice(), *place, *byte);
        assert!(rt; found == *fault, "{byte} at {place}");
    }
    Ok(())
}

/// Frames of two demands, the second of which has a byte written.
fn two_frames(alloc: Global) -> Result<Frames, NoMemory>
    ensures { IfOk result (λ frames. length frames ≡ 2) }
{
    let mut frames = Frames::new(alloc, &[40, 48])?;
    frames.bytes_mut(1)[67] = 7;
    Ok(frames)
}

#[test]
fn one_demand_is_written_and_no_other(rt: HostRuntime) -> Result<(), Fail> {
    let frames = two_frames(rt.alloc())?;
    assert!(rt; frames.bytes(0) == [0; 60].as_slice());
    assert!(rt; frames.bytes(1).len() == 68 && frames.bytes(1)[67] == 7);
    Ok(())
}
