//! The command `show`: a device file as text.

ghost use Rattle.std.specs.Prelude.{◌≡◌};
ghost use Rattle.irt_io.specs.Fault.{IsLater};
ghost use Rattle.irt_steps.specs.Follow.{Follows, HasCause};
ghost use Rattle.irt_top.specs.Show.{show_steps};

use crate::files::load_bundle;
use irt_io::shelf::Shelf;
use irt_show::print_bundle;
use irt_steps::stop::Stop;
use std::alloc::Global;

/// The text of the bundle that a file spells.
pub fn show<S: Shelf>(alloc: Global, shelf: &mut S, name: &str) -> Result<Vec<u8>, Stop>
    ensures step { Follows (λ v. v.items) (show_steps name.now) (S.files shelf.old) (S.files shelf.new) result }
    ensures kept { S.files shelf.new ≡ S.files shelf.old }
    ensures cause { HasCause (S.faults shelf.old) (S.faults shelf.new) result }
    ensures later { IsLater (S.faults shelf.old) (S.faults shelf.new) }
{
    let bundle = load_bundle(alloc, shelf, name)?;
    Ok(print_bundle(alloc, &bundle)?)
}
