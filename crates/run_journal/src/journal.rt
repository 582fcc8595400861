//! The journal.

ghost use Rattle.std.specs.Prelude.{◌≡◌, ◌+◌, ◌<◌, ◌≤◌, ◌++◌, ◌∷◌, [], length, OnOk, OnErr, vec_len, vec_capacity};
ghost use Rattle.run_journal.specs.Written.{IsSortedFrom};

use cycle_rows::rows::{JournalRow, sort_rows};
use irt_base::list::Items;
use irt_base::memory::NoMemory;
use std::alloc::Global;
use std::marker::Model;

/// What happened in a run, cycle by cycle. A clause sees the rows, and for how many more there is room.
#[derive(Drop)]
pub struct Journal {
    rows: Vec<JournalRow>,
}

impl Model for Journal {
    ghost use Rattle.std.specs.Prelude.{vec_len, vec_capacity, ◌-◌};
    ghost use Rattle.run_journal.specs.Written.{Written};

    ghost Value = { Written };

    ghost view = { λ j. record { rows = j.rows.items; room = vec_capacity j.rows - vec_len j.rows } };
}

impl Journal {
    /// An empty journal. It takes no memory.
    pub fn new(alloc: Global) -> Journal
        ensures { result.rows ≡ [] }
    {
        Journal {
            rows: Vec::new(alloc),
        }
    }

    /// How many rows there are.
    pub fn len(&self) -> usize
        ensures { result ≡ length self.now.rows }
    {
        self.rows.len()
    }

    /// The rows.
    pub fn as_slice(&self) -> &[JournalRow]
        ensures { result.now ≡ self.now.rows }
    {
        self.rows.as_slice()
    }

    /// The rows, given away. It takes no memory.
    pub fn into_rows(self) -> Items<JournalRow>
        ensures { result ≡ self.rows }
    {
        let Journal { rows } = self;
        Items::from_vec(rows)
    }

    /// Makes room for so many more rows.
    ///
    /// # Errors
    /// `NoMemory` where memory runs out. The journal is as it was.
    pub fn reserve(&mut self, rows: usize) -> Result<(), NoMemory>
        ensures rows { self.new.rows ≡ self.old.rows }
        ensures ok { OnOk result (rows ≤ self.new.room) }
        ensures err { OnErr result (self.new ≡ self.old) }
    {
        self.rows.reserve(rows)?;
        Ok(())
    }

    /// Appends a row. It takes no memory.
    pub fn push(&mut self, row: JournalRow)
        requires { 0 < self.old.room }
        ensures rows { self.new.rows ≡ self.old.rows ++ row ∷ [] }
        ensures room { self.new.room + 1 ≡ self.old.room }
    {
        self.rows.push_reserved(row);
    }

    /// Sorts the rows from a place on. It takes no memory.
    pub fn sort_from(&mut self, from: usize)
        requires { from ≤ length self.old.rows }
        ensures sorted { IsSortedFrom from self.old.rows self.new.rows }
        ensures room { self.new.room ≡ self.old.room }
    {
        sort_items(&mut self.rows, from);
    }
}

fn sort_items(rows: &mut Vec<JournalRow>, from: usize)
    requires { from ≤ vec_len rows.old }
    ensures sorted { IsSortedFrom from rows.old.items rows.new.items }
    ensures len { vec_len rows.new ≡ vec_len rows.old }
    ensures capacity { vec_capacity rows.new ≡ vec_capacity rows.old }
{
    sort_rows(&mut rows[from..]);
}
