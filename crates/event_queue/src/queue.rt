//! The events that wait.

ghost use Rattle.std.specs.Prelude.{◌≡◌, ◌+◌, ◌<◌, ◌≤◌, [], ◌∷◌, IfOk, IfSome, OnSome, IfNone, IsPermutation, All};
ghost use Rattle.event_queue.specs.Waiting.{IsNotBefore};

use cycle_events::events::Event;
use irt_base::memory::NoMemory;
use std::alloc::Global;
use std::cmp::Reverse;
use std::collections::BinaryHeap;
use std::marker::Model;

/// The events that wait, the least by time, device, port and frame first. A clause sees them in no particular order,
/// and for how many more there is room.
#[derive(Drop)]
pub struct Queue {
    heap: BinaryHeap<Reverse<Event>>,
}

impl Model for Queue {
    ghost use Rattle.std.specs.Prelude.{map, ◌-◌};
    ghost use Rattle.std.specs.BinaryHeap.{heap_items, heap_len, heap_capacity, IsHeap};
    ghost use Rattle.event_queue.specs.Waiting.{Waiting, event_in};

    ghost Value = { Waiting };

    ghost view = { λ q. record {
      events = map event_in (heap_items q.heap);
      room = heap_capacity q.heap - heap_len q.heap;
    } };

    ghost invariant = { λ q. IsHeap ⟦<Reverse<Event> as Ord>⟧.cmp (heap_items q.heap) };
}

impl Queue {
    /// An empty queue with room for so many events.
    ///
    /// # Errors
    /// `NoMemory` where memory runs out.
    pub fn new(alloc: Global, room: usize) -> Result<Queue, NoMemory>
        ensures events { IfOk result (λ q. q.events ≡ []) }
        ensures room { IfOk result (λ q. q.room ≡ room) }
    {
        let heap = BinaryHeap::with_capacity(alloc, room)?;
        Ok(Queue { heap })
    }

    /// Takes out an event that no other lies before in time. `None` comes exactly where none waits.
    pub fn pop(&mut self) -> Option<Event>
        ensures taken { IfSome result (λ e. IsPermutation self.old.events (e ∷ self.new.events)) }
        ensures room { OnSome result (self.new.room ≡ self.old.room + 1) }
        ensures least { IfSome result (λ e. All (IsNotBefore e) self.new.events) }
        ensures none { IfNone result (self.old.events ≡ []) }
        ensures unchanged { IfNone result (self.new ≡ self.old) }
    {
        let Reverse(event) = self.heap.pop()?;
        Some(event)
    }

    /// Puts an event in. It takes no memory.
    pub fn push(&mut self, event: Event)
        requires { 0 < self.old.room }
        ensures put { IsPermutation (event ∷ self.old.events) self.new.events }
        ensures room { self.old.room ≤ self.new.room + 1 }
    {
        let _ = self.heap.push(Reverse(event));
    }
}
