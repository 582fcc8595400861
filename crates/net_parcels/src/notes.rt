//! Notes of what was handed over in a cycle, in room that was made beforehand.

ghost use Rattle.std.specs.Prelude.{◌≡◌, ◌<◌, ◌++◌, ◌∷◌, [], IfOk};
ghost use Rattle.net_parcels.specs.Notes.{noted, refused_by, came_by};

use cycle_rows::rows::JournalRow;
use irt_base::memory::NoMemory;
use parcel_loads::passing::Passed;
use parcel_loads::rows::{came_row, refused_row};
use parcel_rules::handed::Handed;
use std::alloc::Global;
use std::marker::Model;

/// The rows of parcels that were refused in a cycle and of those that have come, each in the order of handing over, with
/// room for so many in all.
#[derive(Drop)]
pub struct Notes {
    refused: Vec<JournalRow>,
    came: Vec<JournalRow>,
    room: usize,
}

impl Model for Notes {
    ghost use Rattle.std.specs.Prelude.{◌+◌, ◌≤◌, length};
    ghost use Rattle.std.specs.Vec.{vec_capacity};
    ghost use Rattle.net_parcels.specs.Notes.{NotesState};

    ghost Value = { NotesState };

    ghost view = { λ n. record { refused = n.refused.items; came = n.came.items; room = n.room } };

    ghost invariant = { λ n. (n.room ≤ vec_capacity n.refused) × (n.room ≤ vec_capacity n.came)
        × (length n.refused.items + length n.came.items ≤ n.room) };
}

impl Notes {
    /// No rows, with room for so many.
    ///
    /// # Errors
    /// `NoMemory` where memory runs out.
    pub fn new(alloc: Global, room: usize) -> Result<Notes, NoMemory>
        ensures { IfOk result (λ notes. notes ≡ record { refused = []; came = []; room = room }) }
    {
        let refused = Vec::with_capacity(alloc, room)?;
        let came = Vec::with_capacity(alloc, room)?;
        Ok(Notes {
            refused,
            came,
            room,
        })
    }

    /// The rows of parcels that were refused.
    pub fn refused(&self) -> &[JournalRow]
        ensures { result.now ≡ self.now.refused }
    {
        self.refused.as_slice()
    }

    /// The rows of parcels that have come.
    pub fn came(&self) -> &[JournalRow]
        ensures { result.now ≡ self.now.came }
    {
        self.came.as_slice()
    }

    /// Notes what became of a parcel when it was handed over in cycle `k`. It takes no memory.
    pub fn note(&mut self, k: u32, handed: Handed, passed: Passed)
        requires { noted self.old < self.old.room }
        ensures { self.new ≡ record self.old {
          refused = self.old.refused ++ refused_by k handed passed;
          came = self.old.came ++ came_by k handed passed;
        } }
    {
        match passed {
            Passed::Came => self.came.push_reserved(came_row(k, handed)),
            Passed::Refused(port) => {
                let row = refused_row(k, (handed.device, port), handed.parcel);
                self.refused.push_reserved(row);
            }
            Passed::Queued(_) | Passed::Stays => {}
        }
    }

    /// Takes all rows out. The room stays.
    pub fn clear(&mut self)
        ensures { self.new ≡ record self.old { refused = []; came = [] } }
    {
        self.refused.clear();
        self.came.clear();
    }
}
