//! A shelf in memory that never fails.

ghost use Rattle.std.specs.Prelude.{◌≡◌, ◌≢◌, ◌≤◌, ℕ, List, length, Some, None, IfOk, IfSome, OnErr, option_map};
ghost use Rattle.irt_base.specs.Valid.{AreBytes};
ghost use Rattle.irt_io.specs.Fault.{IsLater};
ghost use Rattle.irt_io.specs.Files.{Files, IsLoad, IsLoadCause, IsStore, IsStoreCause, Stores};

use crate::bytes::are_bytes;
use crate::shelf::{Shelf, ShelfError};
use irt_base::memory::NoMemory;
use std::alloc::Global;
use std::collections::BTreeMap;

/// Files in memory. No call answers `Failed`.
#[derive(Drop)]
pub struct SureShelf {
    alloc: Global,
    files: BTreeMap<String, Vec<u8>>,
}

impl SureShelf {
    ghost use Rattle.irt_io.specs.Held.{files_of};

    /// A shelf that holds nothing.
    pub fn new(alloc: Global) -> SureShelf
        ensures { (name : List ℕ) → files_of result name ≡ None }
    {
        SureShelf {
            alloc,
            files: BTreeMap::new(alloc),
        }
    }

    /// Lays a file on the shelf, over what the name held. Want of memory leaves all as it was.
    pub fn hold(&mut self, name: &str, bytes: &[u8]) -> Result<(), NoMemory>
        ensures stores { Stores (files_of self.old) (files_of self.new) name.now bytes.now result }
        ensures err { OnErr result (files_of self.new ≡ files_of self.old) }
    {
        let key = String::from_str(self.alloc, name)?;
        let value = Vec::from_slice(self.alloc, bytes)?;
        let _ = self.files.insert(key, value)?;
        Ok(())
    }

    /// The bytes that a name holds, where it holds any.
    pub fn held(&self, name: &str) -> Option<&[u8]>
        ensures held { option_map (λ bytes. bytes.now) result ≡ files_of self.now name.now }
        ensures bytes { IfSome result (λ bytes. AreBytes bytes.now) }
    {
        match self.files.get(name) {
            Some(bytes) => {
                let held = bytes.as_slice();
                are_bytes(held);
                Some(held)
            }
            None => None,
        }
    }
}

impl Shelf for SureShelf {
    ghost use Rattle.irt_io.specs.Held.{files_of};

    ghost files = { λ s. Some (files_of s) };

    ghost faults = { λ _. 0 };

    fn load(&mut self, alloc: Global, name: &str, limit: usize) -> Result<Vec<u8>, ShelfError>
        ensures kept { files_of self.new ≡ files_of self.old }
        ensures bound { IfOk result (λ v. length v.items ≤ limit) }
        ensures bytes { IfOk result (λ v. AreBytes v.items) }
        ensures answer { IsLoad (Some (files_of self.old)) name.now limit result }
        ensures cause { IsLoadCause 0 0 result }
        ensures later { IsLater 0 0 }
        ensures sure { result ≢ Err ShelfError.Failed }
    {
        let Some(bytes) = self.held(name) else {
            return Err(ShelfError::Absent);
        };
        if bytes.len() > limit {
            return Err(ShelfError::TooLong);
        }
        match Vec::from_slice(alloc, bytes) {
            Ok(copy) => Ok(copy),
            Err(_) => Err(ShelfError::NoMemory),
        }
    }

    fn store(&mut self, name: &str, bytes: &[u8]) -> Result<(), ShelfError>
        ensures answer { IsStore (Some (files_of self.old)) (Some (files_of self.new)) name.now bytes.now result }
        ensures cause { IsStoreCause 0 0 result }
        ensures later { IsLater 0 0 }
        ensures err { OnErr result (files_of self.new ≡ files_of self.old) }
        ensures sure { result ≢ Err ShelfError.Failed }
    {
        match self.hold(name, bytes) {
            Ok(()) => Ok(()),
            Err(NoMemory) => Err(ShelfError::NoMemory),
        }
    }
}
