//! Writing a message.

ghost use Rattle.std.specs.Prelude.{◌≡◌, length, take, drop};
ghost use Rattle.ptcp_core.specs.Messages.{AreTimes, AreSized, Spells, msg_bytes, sync_bytes, request_bytes, response_bytes};

use crate::messages::{
    DelayReq, DelayRes, Msg, REQUEST, REQUEST_SIZE, RESPONSE, RESPONSE_SIZE, SYNC, SYNC_SIZE,
    SyncMsg,
};
use byteorder::{BigEndian, ByteOrder};

/// Writes a message, whose times are below `TIME_END`, to the front of `out`, and gives how many
/// bytes it has. What `read_msg` reads of them is the message.
pub fn write_msg(out: &mut [u8; SYNC_SIZE], msg: &Msg) -> usize
    requires times { AreTimes msg.now }
    ensures bytes { take result out.new ≡ msg_bytes msg.now }

    // Every message has its fields' sizes, which a clause has to name.
    ensures spells { AreSized msg.now → Spells (take result out.new) msg.now }

    ensures count { result ≡ length (msg_bytes msg.now) }
    ensures rest { drop result out.new ≡ drop result out.old }
{
    match msg {
        Msg::Sync(msg) => {
            *out = sync(msg);
            SYNC_SIZE
        }
        Msg::Request(msg) => {
            out[..REQUEST_SIZE].copy_from_slice(&request(msg));
            REQUEST_SIZE
        }
        Msg::Response(msg) => {
            out[..RESPONSE_SIZE].copy_from_slice(&response(msg));
            RESPONSE_SIZE
        }
    }
}

fn sync(msg: &SyncMsg) -> [u8; SYNC_SIZE]
    ensures { result ≡ sync_bytes msg.now }
{
    let mut bytes = [0; SYNC_SIZE];
    bytes[0] = SYNC;
    bytes[1] = msg.hops;
    BigEndian::write_u32(&mut bytes[4..], msg.number);
    BigEndian::write_u32(&mut bytes[8..], msg.cycle);
    BigEndian::write_u64(&mut bytes[12..], msg.origin);
    BigEndian::write_u64(&mut bytes[20..], msg.correction);
    bytes
}

fn request(msg: &DelayReq) -> [u8; REQUEST_SIZE]
    ensures { result ≡ request_bytes msg.now }
{
    let mut bytes = [REQUEST, 0, 0, 0];
    BigEndian::write_u16(&mut bytes[2..], msg.number);
    bytes
}

fn response(msg: &DelayRes) -> [u8; RESPONSE_SIZE]
    ensures { result ≡ response_bytes msg.now }
{
    let mut bytes = [0; RESPONSE_SIZE];
    bytes[0] = RESPONSE;
    BigEndian::write_u16(&mut bytes[2..], msg.number);
    BigEndian::write_u64(&mut bytes[4..], msg.t2);
    BigEndian::write_u64(&mut bytes[12..], msg.t3);
    bytes
}
