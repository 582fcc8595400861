//! Reading a frame.

ghost use Rattle.std.specs.Prelude.{◌≡◌, ◌≤◌, ◌+◌, length, take, Ok, Err, IfOk, IsOkAnd, MatchResult};
ghost use Rattle.rtc3_frame.specs.Frame.{Fields, Spells, fields_of, placed_fields, fields_at};
ghost use Rattle.rtc3_frame.specs.Fault.{fault_of, length_fits, frame_fits};

use crate::fault::FrameFault;
use crate::frame::{ETHERTYPE, HEAD, Rtc3, TAIL};
use byteorder::{BigEndian, ByteOrder};
use irt_base::limits::{DATA_STEP, MAX_DATA, MAX_RED_FRAME, MIN_DATA, MIN_FRAME};
use irt_base::numbers::FrameId;

/// Reads a frame, without copying its data. The addresses are given as they stand.
pub fn read_rtc3(bytes: &[u8]) -> Result<Rtc3<'_>, FrameFault>
    // What is read is a frame, and laid out so.
    ensures found { IfOk result (λ r. Spells bytes.now (fields_of r)) }
    // What is laid out so is read.
    ensures only { (f : Fields) → Spells bytes.now f → IsOkAnd result (λ r. fields_of r ≡ f) }
    // The fields at their places, or the first cause.
    ensures exact { MatchResult result (λ r. fields_at bytes.now ≡ Ok (fields_of r)) (λ e. fields_at bytes.now ≡ Err e) }
{
    match fault(bytes) {
        Some(fault) => Err(fault),
        None => Ok(fields(bytes)),
    }
}

/// The first cause for which the bytes are no frame.
fn fault(bytes: &[u8]) -> Option<FrameFault>
    ensures { result ≡ fault_of bytes.now }
{
    if bytes.len() < HEAD + usize::from(MIN_DATA) + TAIL {
        return Some(FrameFault::Short);
    }
    if !length_fits(bytes.len()) {
        return Some(FrameFault::BadLength);
    }
    if BigEndian::read_u16(&bytes[12..]) != ETHERTYPE {
        return Some(FrameFault::BadEthertype);
    }
    if !frame_fits(BigEndian::read_u16(&bytes[14..])) {
        return Some(FrameFault::BadFrameId);
    }
    if bytes[bytes.len() - 1] != 0 {
        return Some(FrameFault::BadTransfer);
    }
    None
}

/// Whether a frame of at least `HEAD + TAIL` bytes may have so many.
fn length_fits(count: usize) -> bool
    requires { HEAD + TAIL ≤ count }
    ensures { result ≡ length_fits count }
{
    let data = count - (HEAD + TAIL);
    data <= usize::from(MAX_DATA) && data % usize::from(DATA_STEP) == 0
}

/// Whether a FrameID is one of RT_CLASS_3.
fn frame_fits(frame: u16) -> bool
    ensures { result ≡ frame_fits frame }
{
    MIN_FRAME <= frame && frame <= MAX_RED_FRAME
}

/// The fields at their places.
fn fields(bytes: &[u8]) -> Rtc3<'_>
    requires { HEAD + TAIL ≤ length bytes.now }
    ensures { fields_of result ≡ placed_fields bytes.now }
{
    let end = bytes.len() - TAIL;
    Rtc3 {
        destination: address(bytes),
        source: address(&bytes[6..]),
        frame: FrameId(BigEndian::read_u16(&bytes[14..])),
        csdu: &bytes[HEAD..end],
        counter: BigEndian::read_u16(&bytes[end..]),
        status: bytes[end + 2],
    }
}

/// The address at the front of some bytes.
fn address(bytes: &[u8]) -> [u8; 6]
    requires { 6 ≤ length bytes.now }
    ensures { result ≡ take 6 bytes.now }
{
    let mut address = [0; 6];
    address.copy_from_slice(&bytes[..6]);
    address
}
