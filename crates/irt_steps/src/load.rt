//! Loading and storing a file as a step of a command.

ghost use Rattle.std.specs.Prelude.{◌≡◌, ◌≤◌, length, IfOk};
ghost use Rattle.irt_base.specs.Valid.{AreBytes};
ghost use Rattle.irt_io.specs.Fault.{IsLater};
ghost use Rattle.irt_steps.specs.Follow.{Follows, HasCause};
ghost use Rattle.irt_steps.specs.Steps.{loads, stores, gives};

use crate::line::stop_of;
use crate::stop::Stop;
use irt_io::shelf::Shelf;
use std::alloc::Global;

/// The bytes of a file of at most `limit` bytes.
pub fn load_file<S: Shelf>(
    alloc: Global,
    shelf: &mut S,
    name: &str,
    limit: usize,
) -> Result<Vec<u8>, Stop>
    ensures kept { S.files shelf.new ≡ S.files shelf.old }
    ensures bound { IfOk result (λ v. length v.items ≤ limit) }
    ensures bytes { IfOk result (λ v. AreBytes v.items) }
    ensures step { Follows (λ v. v.items) (loads name.now limit (λ bytes. gives bytes)) (S.files shelf.old) (S.files shelf.new) result }
    ensures cause { HasCause (S.faults shelf.old) (S.faults shelf.new) result }
    ensures later { IsLater (S.faults shelf.old) (S.faults shelf.new) }
{
    match shelf.load(alloc, name, limit) {
        Ok(bytes) => Ok(bytes),
        Err(error) => Err(stop_of(alloc, error, name)),
    }
}

/// Puts bytes under a name, over what it held.
pub fn store_file<S: Shelf>(
    alloc: Global,
    shelf: &mut S,
    name: &str,
    bytes: &[u8],
) -> Result<(), Stop>
    ensures step { Follows (λ u. u) (stores name.now bytes.now (gives tt)) (S.files shelf.old) (S.files shelf.new) result }
    ensures cause { HasCause (S.faults shelf.old) (S.faults shelf.new) result }
    ensures later { IsLater (S.faults shelf.old) (S.faults shelf.new) }
{
    match shelf.store(name, bytes) {
        Ok(()) => Ok(()),
        Err(error) => Err(stop_of(alloc, error, name)),
    }
}
