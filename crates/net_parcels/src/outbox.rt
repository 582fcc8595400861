//! What a port sends in a cycle, in room that was made beforehand.

ghost use Rattle.std.specs.Prelude.{◌≡◌, ◌*◌, ◌<◌, ◌≤◌, ◌∷◌, ◌++◌, [], length, IfOk};
ghost use Rattle.period_gate.specs.declared.queue.TheConstants.{QUEUE_ROOM};

use irt_base::memory::NoMemory;
use period_gate::QUEUE_ROOM;
use period_gate::parcels::Sent;
use std::alloc::Global;
use std::marker::Model;

/// The parcels that a port has sent in a cycle, in their order, with room for all that may wait there. A clause sees the
/// list of them.
#[derive(Drop)]
pub struct Outbox {
    sent: Vec<Sent>,
}

impl Model for Outbox {
    ghost use Rattle.std.specs.Prelude.{List, ◌*◌, ◌≤◌, length};
    ghost use Rattle.std.specs.Vec.{vec_capacity};
    ghost use Rattle.period_gate.specs.declared.parcels.Sent.{Sent};
    ghost use Rattle.period_gate.specs.declared.queue.TheConstants.{QUEUE_ROOM};

    ghost Value = { List Sent };

    ghost view = { λ o. o.sent.items };

    ghost invariant = { λ o. (2 * QUEUE_ROOM ≤ vec_capacity o.sent) × (length o.sent.items ≤ 2 * QUEUE_ROOM) };
}

impl Outbox {
    /// Nothing sent, with all its room.
    ///
    /// # Errors
    /// `NoMemory` where memory runs out.
    pub fn new(alloc: Global) -> Result<Outbox, NoMemory>
        ensures { IfOk result (λ outbox. outbox ≡ []) }
    {
        let sent = Vec::with_capacity(alloc, 2 * QUEUE_ROOM)?;
        Ok(Outbox { sent })
    }

    /// What was sent, in its order.
    pub fn as_slice(&self) -> &[Sent]
        ensures sent { result.now ≡ self.now }
        ensures room { length result.now ≤ 2 * QUEUE_ROOM }
    {
        self.sent.as_slice()
    }

    /// Puts a parcel last. It takes no memory.
    pub fn push(&mut self, one: Sent)
        requires { length self.old < 2 * QUEUE_ROOM }
        ensures { self.new ≡ self.old ++ one ∷ [] }
    {
        self.sent.push_reserved(one);
    }

    /// Takes all out. The room stays.
    pub fn clear(&mut self)
        ensures { self.new ≡ [] }
    {
        self.sent.clear();
    }
}
