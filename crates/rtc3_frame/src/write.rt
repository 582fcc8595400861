//! Writing a frame.

ghost use Rattle.std.specs.Prelude.{◌≡◌, ◌+◌, length, Ok};
ghost use Rattle.irt_base.specs.Valid.{IsWithin, IsDataLength};
ghost use Rattle.rtc3_frame.specs.Frame.{IsFrame, frame_bytes, fields_at, sent_fields, head_bytes, tail_bytes};

use crate::frame::{ETHERTYPE, HEAD, TAIL};
use byteorder::{BigEndian, ByteOrder};
use irt_base::limits::{MAX_RED_FRAME, MIN_FRAME};
use irt_base::numbers::{DevId, FrameId};

/// Writes the frame with which a device sends data: `out` becomes exactly the frame.
pub fn write_rtc3(
    out: &mut [u8],
    frame: FrameId,
    source: DevId,
    csdu: &[u8],
    counter: u16,
    status: u8,
)
    requires { length out.old ≡ length csdu.now + (HEAD + TAIL) }
    ensures bytes { out.new ≡ frame_bytes (sent_fields frame.0 source.0 csdu.now counter status) }

    // A frame of valid fields reads back as these.
    ensures valid { IsWithin MIN_FRAME MAX_RED_FRAME frame.0 → IsDataLength (length csdu.now) →
        IsFrame (sent_fields frame.0 source.0 csdu.now counter status) }
    ensures back { IsWithin MIN_FRAME MAX_RED_FRAME frame.0 → IsDataLength (length csdu.now) →
        fields_at out.new ≡ Ok (sent_fields frame.0 source.0 csdu.now counter status) }
{
    let end = HEAD + csdu.len();
    out[..HEAD].copy_from_slice(&head(frame, source));
    out[HEAD..end].copy_from_slice(csdu);
    out[end..].copy_from_slice(&tail(counter, status));
}

/// The bytes before the data.
fn head(frame: FrameId, source: DevId) -> [u8; HEAD]
    ensures { result ≡ head_bytes frame.0 source.0 }
{
    let mut head = [3, 0, 0, 0, 0, 0, 2, 0, 0, 0, 0, source.0, 0, 0, 0, 0];
    BigEndian::write_u16(&mut head[4..], frame.0);
    BigEndian::write_u16(&mut head[12..], ETHERTYPE);
    BigEndian::write_u16(&mut head[14..], frame.0);
    head
}

/// The bytes behind the data.
fn tail(counter: u16, status: u8) -> [u8; TAIL]
    ensures { result ≡ tail_bytes counter status }
{
    let mut tail = [0, 0, status, 0];
    BigEndian::write_u16(&mut tail, counter);
    tail
}
