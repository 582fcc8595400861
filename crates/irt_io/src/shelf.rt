//! A shelf: files by name.

ghost use Rattle.std.specs.Prelude.{◌≡◌, ◌≤◌, ℕ, length, Option, IfOk};
ghost use Rattle.irt_base.specs.Valid.{AreBytes};
ghost use Rattle.irt_io.specs.Fault.{IsLater};
ghost use Rattle.irt_io.specs.Files.{Files, IsLoad, IsLoadCause, IsStore, IsStoreCause};

use std::alloc::Global;
use thiserror::Error;

/// Why a shelf gave or took no file.
#[derive(Clone, Copy, Debug, PartialEq, Eq, Error)]
pub enum ShelfError {
    #[error("no such file")]
    Absent,
    #[error("the file is too long")]
    TooLong,
    #[error("the shelf failed")]
    Failed,
    #[error("out of memory")]
    NoMemory,
}

/// Files by name. Where a shelf tells its files, contracts see what each name holds.
pub trait Shelf {
    ghost files: { Self → Option Files };

    ghost faults: { Self → ℕ };

    /// The bytes of a file of at most `limit` bytes. No call of `load` changes a file.
    ///
    /// `Absent`: the name is not held. `TooLong`: it holds more than `limit` bytes. After either no
    /// fault was counted. `Failed`: a fault, which was counted. Of several causes a fault comes first.
    fn load(&mut self, alloc: Global, name: &str, limit: usize) -> Result<Vec<u8>, ShelfError>
        ensures kept { files self.new ≡ files self.old }
        ensures bound { IfOk result (λ v. length v.items ≤ limit) }
        ensures bytes { IfOk result (λ v. AreBytes v.items) }
        ensures answer { IsLoad (files self.old) name.now limit result }
        ensures cause { IsLoadCause (faults self.old) (faults self.new) result }
        ensures later { IsLater (faults self.old) (faults self.new) };

    /// Puts bytes under a name, over what it held. All other names stay as they were.
    ///
    /// `Failed`: a fault, which was counted. `NoMemory`: want of memory. After either the name may
    /// hold anything. No other error comes.
    fn store(&mut self, name: &str, bytes: &[u8]) -> Result<(), ShelfError>
        ensures answer { IsStore (files self.old) (files self.new) name.now bytes.now result }
        ensures cause { IsStoreCause (faults self.old) (faults self.new) result }
        ensures later { IsLater (faults self.old) (faults self.new) };
}
