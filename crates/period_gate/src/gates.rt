//! The gate of a port.

ghost use Rattle.std.specs.Prelude.{◌≡◌, ◌↔◌, ◌∷◌, ◌++◌, ◌≤◌, [], max, length, IfOk};
ghost use Rattle.irt_base.specs.Cycle.{parcel_time};

use crate::parcels::{Offered, Parcel, Sent};
use crate::queue::{QUEUE_ROOM, Queue};
use irt_base::blocks::Period;
use irt_base::limits::{BYTE_TIME, PARCEL_OVERHEAD};
use irt_base::memory::NoMemory;
use irt_base::plants::Class;
use std::alloc::Global;
use std::marker::Model;

/// The gate of a port. A clause sees the parcels that wait, the Tx period and the limit.
#[derive(Drop)]
pub struct Gate {
    orange: Queue,
    green: Queue,
    period: Period,
    limit: u32,
}

impl Model for Gate {
    ghost use Rattle.period_gate.specs.Gate.{Waiting};

    ghost Value = { Waiting };

    ghost view = { λ g. record {
      orange = g.orange;
      green = g.green;
      period = g.period;
      limit = g.limit;
    } };

    ghost use Rattle.std.specs.Prelude.{◌≤◌, length};
    ghost use Rattle.period_gate.specs.declared.queue.TheConstants.{QUEUE_ROOM};

    ghost invariant = { λ g. (length g.orange ≤ QUEUE_ROOM) × (length g.green ≤ QUEUE_ROOM) };
}

impl Gate {
    ghost use Rattle.period_gate.specs.Gate.{nothing_waiting, queue_of, begin_of, with_last, without_head, sent_by, head_sent, next_sent, left_after};

    /// A gate with room for `QUEUE_ROOM` parcels of each class. The period and the limit are 0, so
    /// that it lets nothing out before the first `begin`.
    pub fn new(alloc: Global) -> Result<Gate, NoMemory>
        ensures { IfOk result (λ gate. gate ≡ nothing_waiting) }
    {
        Ok(Gate {
            orange: Queue::new(alloc)?,
            green: Queue::new(alloc)?,
            period: Period {
                red: 0,
                orange: 0,
                green: 0,
            },
            limit: 0,
        })
    }

    /// Begins a cycle with the port's Tx period and the local time, in ns, by which parcels end.
    pub fn begin(&mut self, period: Period, limit: u32)
        ensures begun { self.new ≡ record self.old { period = period; limit = limit } }
        ensures room { (class : Class) → length (queue_of class self.new) ≤ QUEUE_ROOM }
    {
        self.period = period;
        self.limit = limit;
    }

    /// How many parcels of a class wait: at most `QUEUE_ROOM`, whoever the gate was lent to.
    pub fn waiting(&self, class: Class) -> usize
        ensures count { result ≡ length (queue_of class self.now) }
        ensures room { result ≤ QUEUE_ROOM }
    {
        self.queue(class).len()
    }

    /// Offers a parcel. It is refused where `QUEUE_ROOM` parcels of its class wait, which changes
    /// nothing, and put last in its class elsewhere.
    pub fn offer(&mut self, class: Class, parcel: Parcel) -> Offered
        ensures full { (result ≡ Offered.Full) ↔ (length (queue_of class self.old) ≡ QUEUE_ROOM) }
        ensures refused { result ≡ Offered.Full → self.new ≡ self.old }
        ensures queued { result ≡ Offered.Queued → self.new ≡ with_last class parcel self.old }
    {
        match class {
            Class::Orange => offer_to(&mut self.orange, parcel),
            Class::Green => offer_to(&mut self.green, parcel),
        }
    }

    /// Takes the next parcel of the cycle out, with its time. `local` is when the parcel before ended,
    /// or 0 for the first of the cycle. The orange head is tried first, from the later of `local` and
    /// the begin of its period, then the green head likewise. `None` comes exactly where neither ends
    /// by the limit.
    pub fn next(&mut self, local: u32) -> Option<Sent>
        ensures given { result ≡ next_sent self.old local }
        ensures left { self.new ≡ left_after result self.old }
    {
        let sent = match self.head(Class::Orange, local) {
            Some(sent) => sent,
            None => self.head(Class::Green, local)?,
        };
        self.drop_head(sent.class);
        Some(sent)
    }

    /// The head of a class from a time on, where it ends by the limit.
    fn head(&self, class: Class, local: u32) -> Option<Sent>
        ensures { result ≡ head_sent class self.now local }
    {
        let parcel = *self.queue(class).front()?;
        self.sent(class, local.max(self.begin_of(class)), parcel)
    }

    /// A parcel that starts then, where it ends by the limit.
    fn sent(&self, class: Class, start: u32, parcel: Parcel) -> Option<Sent>
        ensures { result ≡ sent_by class start self.now.limit parcel }
    {
        let end = u64::from(start) + u64::from(occupied(parcel.length));
        if end <= u64::from(self.limit) {
            Some(Sent {
                class,
                parcel,
                start,
                end: end as u32,
            })
        } else {
            None
        }
    }

    fn queue(&self, class: Class) -> &Queue
        ensures { result.now ≡ queue_of class self.now }
    {
        match class {
            Class::Orange => &self.orange,
            Class::Green => &self.green,
        }
    }

    fn begin_of(&self, class: Class) -> u32
        ensures { result ≡ begin_of class self.now.period }
    {
        match class {
            Class::Orange => self.period.orange,
            Class::Green => self.period.green,
        }
    }

    fn drop_head(&mut self, class: Class)
        ensures { self.new ≡ without_head class self.old }
    {
        match class {
            Class::Orange => self.orange.drop_front(),
            Class::Green => self.green.drop_front(),
        }
    }
}

/// Puts a parcel last in a queue that has room.
fn offer_to(queue: &mut Queue, parcel: Parcel) -> Offered
    ensures full { (result ≡ Offered.Full) ↔ (length queue.old ≡ QUEUE_ROOM) }
    ensures refused { result ≡ Offered.Full → queue.new ≡ queue.old }
    ensures queued { result ≡ Offered.Queued → queue.new ≡ queue.old ++ parcel ∷ [] }
{
    if queue.len() == QUEUE_ROOM {
        return Offered::Full;
    }
    queue.push(parcel);
    Offered::Queued
}

/// How long a parcel of so many bytes occupies a link, in ns.
fn occupied(length: u16) -> u32
    ensures { result ≡ parcel_time length }
{
    (u32::from(length) + PARCEL_OVERHEAD) * BYTE_TIME
}
