//! The master of a sync domain.

ghost use Rattle.std.specs.Prelude.{◌≡◌, ◌+◌, ◌<◌, ◌-◌, ◌^◌};
ghost use Rattle.ptcp_core.specs.Clocks.{made_msg};

use crate::messages::{SyncMsg, TIME_END};
use std::marker::Model;

/// Makes the sync messages, numbered from 1. A clause sees how many it made.
#[derive(Drop)]
pub struct Master {
    sent: u32,
}

impl Model for Master {
    ghost use Rattle.std.specs.Prelude.{ℕ};

    ghost Value = { ℕ };

    ghost view = { λ m. m.sent };
}

impl Master {
    /// A master that made no message.
    pub fn new() -> Master
        ensures { result ≡ 0 }
    {
        Master { sent: 0 }
    }

    /// How many messages it made.
    pub fn sent(&self) -> u32
        ensures { result ≡ self.now }
    {
        self.sent
    }

    /// Makes the message of a cycle, which leaves at `now`, in ns.
    pub fn next(&mut self, cycle: u32, now: u64) -> SyncMsg
        requires numbers_left { self.old + 1 < 2 ^ 32 }
        requires in_time { now < TIME_END }
        ensures msg { result ≡ made_msg (self.old + 1) cycle now }
        ensures counted { self.new ≡ self.old + 1 }
    {
        self.sent += 1;
        SyncMsg {
            number: self.sent,
            cycle,
            hops: 0,
            origin: now,
            correction: 0,
        }
    }
}
