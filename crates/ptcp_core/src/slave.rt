//! A slave: what it knows of its offset from the master.

ghost use Rattle.std.specs.Prelude.{◌≡◌};
ghost use Rattle.ptcp_core.specs.Clocks.{fresh_slave, IsEvent, after_event, state_of, is_newer, is_late, offset_of};

use crate::messages::SyncMsg;
use std::marker::Model;

/// What happens to a slave.
#[derive(Clone, Copy, PartialEq, Eq)]
pub enum SyncEvent {
    /// A sync message came at `received` by the slave's clock, over a link of the delay `line`, in ns.
    Sync {
        msg: SyncMsg,
        received: u64,
        line: u32,
    },
    /// A cycle began.
    Tick {
        cycle: u32,
    },
}

/// What a slave says of its clock.
#[derive(Clone, Copy, Debug, PartialEq, Eq)]
pub enum SyncState {
    /// The last message that was accepted is too old, or there is none.
    Muted,
    /// By how many ns the slave's clock is ahead of the master's, by the message accepted last.
    Synced { offset: i64 },
}

/// The message that was accepted last.
#[derive(Clone, Copy, PartialEq, Eq)]
pub struct Accepted {
    pub number: u32,
    pub cycle: u32,
    pub offset: i64,
}

/// A slave. A clause sees what it was made with, the cycle that it was ticked last, 0 at first, and
/// the message accepted last.
#[derive(Drop)]
pub struct Slave {
    send: u32,
    timeout: u16,
    ticked: u32,
    last: Option<Accepted>,
}

impl Model for Slave {
    ghost use Rattle.ptcp_core.specs.Clocks.{SlaveState};

    ghost Value = { SlaveState };

    ghost view = { λ s. record {
      send = s.send;
      timeout = s.timeout;
      ticked = s.ticked;
      last = s.last;
    } };
}

impl Slave {
    /// A slave that has heard nothing. The master sends every `send` cycles; the slave mutes itself
    /// once `timeout` messages in a row are lost.
    pub fn new(send: u32, timeout: u16) -> Slave
        ensures { result ≡ fresh_slave send timeout }
    {
        Slave {
            send,
            timeout,
            ticked: 0,
            last: None,
        }
    }

    /// Takes an event, and says how the clock stands after it. A message is accepted exactly where
    /// none was before or its number exceeds that of the message accepted last; another one changes
    /// nothing.
    pub fn on(&mut self, event: SyncEvent) -> SyncState
        requires { IsEvent event }
        ensures slave { self.new ≡ after_event self.old event }
        ensures state { result ≡ state_of self.new }
    {
        match event {
            SyncEvent::Sync {
                msg,
                received,
                line,
            } => self.hear(msg, received, line),
            SyncEvent::Tick { cycle } => self.ticked = cycle,
        }
        self.state()
    }

    fn hear(&mut self, msg: SyncMsg, received: u64, line: u32)
        requires { IsEvent (SyncEvent.Sync msg received line) }
        ensures { self.new ≡ after_event self.old (SyncEvent.Sync msg received line) }
    {
        if self.is_newer(msg.number) {
            self.last = Some(Accepted {
                number: msg.number,
                cycle: msg.cycle,
                offset: offset(msg, received, line),
            });
        }
    }

    fn is_newer(&self, number: u32) -> bool
        ensures { result ≡ is_newer self.now.last number }
    {
        match self.last {
            Some(last) => last.number < number,
            None => true,
        }
    }

    fn state(&self) -> SyncState
        ensures { result ≡ state_of self.now }
    {
        match self.last {
            Some(last) if !self.is_late(last.cycle) => SyncState::Synced {
                offset: last.offset,
            },
            _ => SyncState::Muted,
        }
    }

    /// Whether a message of this cycle is too old.
    fn is_late(&self, cycle: u32) -> bool
        ensures { result ≡ is_late self.now cycle }
    {
        let patience = u64::from(self.send) * u64::from(self.timeout);
        u64::from(cycle) + patience < u64::from(self.ticked)
    }
}

/// By how many ns the slave's clock is ahead, by a message.
fn offset(msg: SyncMsg, received: u64, line: u32) -> i64
    requires { IsEvent (SyncEvent.Sync msg received line) }
    ensures { result ≡ offset_of msg received line }
{
    let sent = msg.origin + (msg.correction + u64::from(line));
    received as i64 - sent as i64
}
