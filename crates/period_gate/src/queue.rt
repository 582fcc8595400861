//! The parcels of a class that wait, in room that was made beforehand.

ghost use Rattle.std.specs.Prelude.{◌≡◌, ◌∷◌, ◌++◌, ◌<◌, ◌≤◌, [], length, drop, slice_get, IfOk};
ghost use Rattle.std.specs.Option.{option_copied};

use crate::parcels::Parcel;
use irt_base::memory::NoMemory;
use std::alloc::Global;
use std::collections::VecDeque;
use std::marker::Model;

/// How many parcels of a class may wait at a port.
pub const QUEUE_ROOM: usize = 32;

/// A queue with room for `QUEUE_ROOM` parcels. A clause sees the list of those that wait.
#[derive(Drop)]
pub struct Queue {
    parcels: VecDeque<Parcel>,
}

impl Model for Queue {
    ghost use Rattle.std.specs.Prelude.{List, ◌≤◌, length};
    ghost use Rattle.std.specs.VecDeque.{deque_capacity};
    ghost use Rattle.period_gate.specs.declared.parcels.Parcel.{Parcel};
    ghost use Rattle.period_gate.specs.declared.queue.TheConstants.{QUEUE_ROOM};

    ghost Value = { List Parcel };

    ghost view = { λ q. q.parcels.items };

    ghost invariant = { λ q. (QUEUE_ROOM ≤ deque_capacity q.parcels) × (length q.parcels.items ≤ QUEUE_ROOM) };
}

impl Queue {
    /// An empty queue with all its room.
    pub fn new(alloc: Global) -> Result<Queue, NoMemory>
        ensures { IfOk result (λ queue. queue ≡ []) }
    {
        let parcels = VecDeque::with_capacity(alloc, QUEUE_ROOM)?;
        Ok(Queue { parcels })
    }

    /// How many parcels wait.
    pub fn len(&self) -> usize
        ensures count { result ≡ length self.now }
        ensures room { length self.now ≤ QUEUE_ROOM }
    {
        self.parcels.len()
    }

    /// The parcel that waits longest.
    pub fn front(&self) -> Option<&Parcel>
        ensures { option_copied result ≡ slice_get self.now 0 }
    {
        self.parcels.front()
    }

    /// Puts a parcel last. It takes no memory.
    pub fn push(&mut self, parcel: Parcel)
        requires { length self.old < QUEUE_ROOM }
        ensures { self.new ≡ self.old ++ parcel ∷ [] }
    {
        self.parcels.push_back_reserved(parcel);
    }

    /// Takes the first parcel out, where one waits.
    pub fn drop_front(&mut self)
        ensures { self.new ≡ drop 1 self.old }
    {
        let _ = self.parcels.pop_front();
    }
}
