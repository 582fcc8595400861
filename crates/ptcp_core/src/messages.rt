//! The messages, and their bytes.
//!
//! | Message | Fields, big-endian | Bytes |
//! |---|---|---|
//! | sync | type u8 = 1, hops u8, pad 2, number u32, cycle u32, origin u64, correction u64 | 28 |
//! | delay request | type u8 = 2, pad 1, number u16 | 4 |
//! | delay response | type u8 = 3, pad 1, number u16, t2 u64, t3 u64 | 20 |
//!
//! A pad is zeros. Times are ns.

use thiserror::Error;

/// The end of the times that a message may carry: each is below it.
pub const TIME_END: u64 = 0x4000_0000_0000_0000;

/// The first byte of each type of message.
pub const SYNC: u8 = 1;

pub const REQUEST: u8 = 2;

pub const RESPONSE: u8 = 3;

/// The bytes of each type of message.
pub const SYNC_SIZE: usize = 28;

pub const REQUEST_SIZE: usize = 4;

pub const RESPONSE_SIZE: usize = 20;

/// A sync message.
#[derive(Clone, Copy, Debug, PartialEq, Eq)]
pub struct SyncMsg {
    /// Which of the master's messages, from 1.
    pub number: u32,
    /// The cycle in which it was sent.
    pub cycle: u32,
    /// How many devices relayed it.
    pub hops: u8,
    /// The master's time when it was sent, in ns.
    pub origin: u64,
    /// The time that it has travelled since, as far as the relays know, in ns.
    pub correction: u64,
}

/// A request by which the delay of a link is measured.
#[derive(Clone, Copy, Debug, PartialEq, Eq)]
pub struct DelayReq {
    pub number: u16,
}

/// The response, with the times of the request's arrival and of its own departure, in ns.
#[derive(Clone, Copy, Debug, PartialEq, Eq)]
pub struct DelayRes {
    /// The number of the request.
    pub number: u16,
    pub t2: u64,
    pub t3: u64,
}

/// Any message.
#[derive(Clone, Copy, Debug, PartialEq, Eq)]
pub enum Msg {
    Sync(SyncMsg),
    Request(DelayReq),
    Response(DelayRes),
}

/// Why bytes are no message: the first cause that applies, in this order.
#[derive(Clone, Copy, Debug, PartialEq, Eq, Error)]
pub enum MsgFault {
    /// No bytes.
    #[error("there are no bytes")]
    Empty,
    /// A first byte other than 1, 2 and 3.
    #[error("the message has an unknown type")]
    BadType,
    /// Another length than the type's.
    #[error("the message has another length than its type's")]
    BadSize,
    /// A pad that is not zeros.
    #[error("a pad is not zeros")]
    BadPad,
    /// A time of `TIME_END` or more.
    #[error("a time is too great")]
    BadTime,
}
