//! A shelf in memory whose calls of given numbers fail.

ghost use Rattle.std.specs.Prelude.{◌≡◌, ◌≤◌, ◌↔◌, ℕ, List, length, Some, None, IfOk, IfSome, OnErr, IsErrOf, IsTrue, option_map};
ghost use Rattle.irt_io.specs.Fake.{next_fails, after_call};
ghost use Rattle.irt_base.specs.Valid.{AreBytes};
ghost use Rattle.irt_io.specs.Fault.{IsLater};
ghost use Rattle.irt_io.specs.Files.{Files, IsLoad, IsLoadCause, IsStore, IsStoreCause, Stores};

use crate::script::CallScript;
use crate::shelf::{Shelf, ShelfError};
use crate::sure_shelf::SureShelf;
use irt_base::memory::NoMemory;
use std::alloc::Global;

/// Files in memory. The calls of `load` and `store` are counted from 0, and those of given numbers
/// fail.
#[derive(Drop)]
pub struct MemShelf {
    shelf: SureShelf,
    script: CallScript,
}

impl MemShelf {
    ghost use Rattle.irt_io.specs.Held.{held_by, script_of};

    /// A shelf that holds nothing, and whose calls of these numbers fail.
    pub fn new(alloc: Global, fails: &[u32]) -> Result<MemShelf, NoMemory>
        ensures empty { IfOk result (λ s. (name : List ℕ) → held_by s name ≡ None) }
        ensures script { IfOk result (λ s. script_of s ≡ record { fails = fails.now; calls = 0; faults = 0 }) }
    {
        Ok(MemShelf {
            shelf: SureShelf::new(alloc),
            script: CallScript::new(alloc, fails)?,
        })
    }

    /// Lays a file on the shelf, over what the name held. It is none of the numbered calls. Want of
    /// memory leaves all as it was.
    pub fn hold(&mut self, name: &str, bytes: &[u8]) -> Result<(), NoMemory>
        ensures stores { Stores (held_by self.old) (held_by self.new) name.now bytes.now result }
        ensures err { OnErr result (held_by self.new ≡ held_by self.old) }
        ensures script { script_of self.new ≡ script_of self.old }
    {
        self.shelf.hold(name, bytes)
    }

    /// The bytes that a name holds, where it holds any.
    pub fn held(&self, name: &str) -> Option<&[u8]>
        ensures held { option_map (λ bytes. bytes.now) result ≡ held_by self.now name.now }
        ensures bytes { IfSome result (λ bytes. AreBytes bytes.now) }
    {
        self.shelf.held(name)
    }
}

impl Shelf for MemShelf {
    ghost use Rattle.irt_io.specs.Held.{held_by, script_of};

    ghost files = { λ s. Some (held_by s) };

    ghost faults = { λ s. (script_of s).faults };

    fn load(&mut self, alloc: Global, name: &str, limit: usize) -> Result<Vec<u8>, ShelfError>
        ensures kept { held_by self.new ≡ held_by self.old }
        ensures bound { IfOk result (λ v. length v.items ≤ limit) }
        ensures bytes { IfOk result (λ v. AreBytes v.items) }
        ensures answer { IsLoad (Some (held_by self.old)) name.now limit result }
        ensures cause { IsLoadCause (script_of self.old).faults (script_of self.new).faults result }
        ensures later { IsLater (script_of self.old).faults (script_of self.new).faults }
        ensures script { script_of self.new ≡ after_call (script_of self.old) }
        ensures fails { IsErrOf result ShelfError.Failed ↔ IsTrue (next_fails (script_of self.old)) }
    {
        if self.script.call() {
            return Err(ShelfError::Failed);
        }
        self.shelf.load(alloc, name, limit)
    }

    fn store(&mut self, name: &str, bytes: &[u8]) -> Result<(), ShelfError>
        ensures answer { IsStore (Some (held_by self.old)) (Some (held_by self.new)) name.now bytes.now result }
        ensures cause { IsStoreCause (script_of self.old).faults (script_of self.new).faults result }
        ensures later { IsLater (script_of self.old).faults (script_of self.new).faults }
        ensures err { OnErr result (held_by self.new ≡ held_by self.old) }
        ensures script { script_of self.new ≡ after_call (script_of self.old) }
        ensures fails { IsErrOf result ShelfError.Failed ↔ IsTrue (next_fails (script_of self.old)) }
    {
        if self.script.call() {
            return Err(ShelfError::Failed);
        }
        self.shelf.store(name, bytes)
    }
}
