//! Parcels on the way over links.

ghost use Rattle.std.specs.Prelude.{◌≡◌, ◌+◌, ◌∷◌, ◌++◌, ◌<◌, ◌≤◌, [], length, map, slice_get, IfOk};
ghost use Rattle.std.specs.Option.{option_copied};
ghost use Rattle.parcel_rules.specs.Cycle.{handed_on};

use irt_base::memory::NoMemory;
use irt_base::numbers::DevId;
use parcel_rules::handed::Handed;
use period_gate::parcels::Sent;
use std::alloc::Global;
use std::marker::Model;

/// The parcels that links bring to the next cycle, in the order in which they are handed over, with room for so many.
#[derive(Drop)]
pub struct Flight {
    parcels: Vec<Handed>,
    room: usize,
}

impl Model for Flight {
    ghost use Rattle.std.specs.Prelude.{◌≤◌, length};
    ghost use Rattle.std.specs.Vec.{vec_capacity};
    ghost use Rattle.parcel_loads.specs.Flight.{FlightState};

    ghost Value = { FlightState };

    ghost view = { λ f. record { handed = f.parcels.items; room = f.room } };

    ghost invariant = { λ f. (f.room ≤ vec_capacity f.parcels) × (length f.parcels.items ≤ f.room) };
}

impl Flight {
    /// Nothing on the way, with room for so many parcels.
    pub fn new(alloc: Global, room: usize) -> Result<Flight, NoMemory>
        ensures { IfOk result (λ flight. flight ≡ record { handed = []; room = room }) }
    {
        let parcels = Vec::with_capacity(alloc, room)?;
        Ok(Flight { parcels, room })
    }

    /// How many parcels are on the way.
    pub fn len(&self) -> usize
        ensures count { result ≡ length self.now.handed }
        ensures room { length self.now.handed ≤ self.now.room }
    {
        self.parcels.len()
    }

    /// All of them, in the order of handing over.
    pub fn as_slice(&self) -> &[Handed]
        ensures { result.now ≡ self.now.handed }
    {
        self.parcels.as_slice()
    }

    /// The parcel at a place, in the order of handing over.
    pub fn get(&self, place: usize) -> Option<&Handed>
        ensures { option_copied result ≡ slice_get self.now.handed place }
    {
        self.parcels.get(place)
    }

    /// Puts a parcel last. It takes no memory.
    pub fn push(&mut self, handed: Handed)
        requires { length self.old.handed < self.old.room }
        ensures { self.new ≡ record self.old { handed = self.old.handed ++ handed ∷ [] } }
    {
        self.parcels.push_reserved(handed);
    }

    /// Puts last what a port's link brings to a device: all that the port at its other end sent, in the order of sending.
    /// It takes no memory.
    pub fn bring(&mut self, device: DevId, sent: &[Sent])
        requires { length self.old.handed + length sent.now ≤ self.old.room }
        ensures { self.new ≡ record self.old { handed = self.old.handed ++ map (handed_on device) sent.now } }
    {
        for one in sent {
            self.push(Handed {
                device,
                parcel: one.parcel,
            });
        }
    }

    /// Takes all parcels out. The room stays.
    pub fn clear(&mut self)
        ensures { self.new ≡ record self.old { handed = [] } }
    {
        self.parcels.clear();
    }
}
