//! Reading a message.

ghost use Rattle.std.specs.Prelude.{◌≡◌, ◌≤◌, length, None, IfOk, IsOkAnd};
ghost use Rattle.ptcp_core.specs.Messages.{Spells, msg_fault, sync_fault, request_fault, response_fault, placed_msg, msg_at, sync_at, request_at, response_at};
ghost use Rattle.ptcp_core.specs.declared.messages.Msg.{Msg as MsgValue};

use crate::messages::{
    DelayReq, DelayRes, Msg, MsgFault, REQUEST, REQUEST_SIZE, RESPONSE, RESPONSE_SIZE, SYNC,
    SYNC_SIZE, SyncMsg, TIME_END,
};
use byteorder::{BigEndian, ByteOrder};

/// Reads a message, which is all of the bytes.
pub fn read_msg(bytes: &[u8]) -> Result<Msg, MsgFault>
    // What is read is a message, and laid out so.
    ensures found { IfOk result (Spells bytes.now) }
    // What is laid out so is read.
    ensures only { (m : MsgValue) → Spells bytes.now m → IsOkAnd result (λ r. r ≡ m) }
    // The fields at their places, or the first cause.
    ensures exact { result ≡ msg_at bytes.now }
{
    match fault(bytes) {
        Some(fault) => Err(fault),
        None => Ok(fields(bytes)),
    }
}

/// The first cause for which the bytes are no message.
fn fault(bytes: &[u8]) -> Option<MsgFault>
    ensures { result ≡ msg_fault bytes.now }
{
    if bytes.is_empty() {
        return Some(MsgFault::Empty);
    }
    match bytes[0] {
        SYNC => fault_of_sync(bytes),
        REQUEST => fault_of_request(bytes),
        RESPONSE => fault_of_response(bytes),
        _ => Some(MsgFault::BadType),
    }
}

fn fault_of_sync(bytes: &[u8]) -> Option<MsgFault>
    ensures { result ≡ sync_fault bytes.now }
{
    if bytes.len() != SYNC_SIZE {
        return Some(MsgFault::BadSize);
    }
    if bytes[2] != 0 || bytes[3] != 0 {
        return Some(MsgFault::BadPad);
    }
    let msg = sync(bytes);
    if msg.origin >= TIME_END || msg.correction >= TIME_END {
        return Some(MsgFault::BadTime);
    }
    None
}

fn fault_of_request(bytes: &[u8]) -> Option<MsgFault>
    ensures { result ≡ request_fault bytes.now }
{
    if bytes.len() != REQUEST_SIZE {
        return Some(MsgFault::BadSize);
    }
    if bytes[1] != 0 {
        return Some(MsgFault::BadPad);
    }
    None
}

fn fault_of_response(bytes: &[u8]) -> Option<MsgFault>
    ensures { result ≡ response_fault bytes.now }
{
    if bytes.len() != RESPONSE_SIZE {
        return Some(MsgFault::BadSize);
    }
    if bytes[1] != 0 {
        return Some(MsgFault::BadPad);
    }
    let msg = response(bytes);
    if msg.t2 >= TIME_END || msg.t3 >= TIME_END {
        return Some(MsgFault::BadTime);
    }
    None
}

/// The message of bytes without a fault.
fn fields(bytes: &[u8]) -> Msg
    requires { msg_fault bytes.now ≡ None }
    ensures { result ≡ placed_msg bytes.now }
{
    if bytes[0] == SYNC {
        Msg::Sync(sync(bytes))
    } else if bytes[0] == REQUEST {
        Msg::Request(request(bytes))
    } else {
        Msg::Response(response(bytes))
    }
}

fn sync(bytes: &[u8]) -> SyncMsg
    requires { SYNC_SIZE ≤ length bytes.now }
    ensures { result ≡ sync_at bytes.now }
{
    SyncMsg {
        number: BigEndian::read_u32(&bytes[4..]),
        cycle: BigEndian::read_u32(&bytes[8..]),
        hops: bytes[1],
        origin: BigEndian::read_u64(&bytes[12..]),
        correction: BigEndian::read_u64(&bytes[20..]),
    }
}

fn request(bytes: &[u8]) -> DelayReq
    requires { REQUEST_SIZE ≤ length bytes.now }
    ensures { result ≡ request_at bytes.now }
{
    DelayReq {
        number: BigEndian::read_u16(&bytes[2..]),
    }
}

fn response(bytes: &[u8]) -> DelayRes
    requires { RESPONSE_SIZE ≤ length bytes.now }
    ensures { result ≡ response_at bytes.now }
{
    DelayRes {
        number: BigEndian::read_u16(&bytes[2..]),
        t2: BigEndian::read_u64(&bytes[4..]),
        t3: BigEndian::read_u64(&bytes[12..]),
    }
}
