//! Applications that meet.

ghost use Rattle.std.specs.Prelude.{◌≡◌, IfOk, length, replicate};

use irt_base::list::Items;
use irt_base::memory::NoMemory;
use iso_app::IsoApp;
use std::alloc::Global;
use std::sync::atomic::{AtomicBool, Ordering};

/// How often an application looks for the other's flag, at most.
const LOOKS: u32 = 1_000_000_000;

/// What an application shows: that it turns, and that it saw the other one turn.
#[derive(Drop)]
pub struct Flag {
    raised: AtomicBool,
    met: AtomicBool,
}

impl Flag {
    pub fn new() -> Flag {
        Flag {
            raised: AtomicBool::new(false),
            met: AtomicBool::new(false),
        }
    }

    /// Whether its application saw the other one turn.
    pub fn has_met(&self) -> bool {
        self.met.load(Ordering::SeqCst)
    }
}

/// Puts out zeros. In its turn it raises its flag, and looks for the other's. What it shows and sees is no part of its
/// reply, nor of its state.
#[derive(Drop)]
pub struct Meeting<'a> {
    own: &'a Flag,
    other: &'a Flag,
}

impl IsoApp for Meeting<'_> {
    ghost reply = { λ _ _ count. replicate count 0 };

    ghost next_state = { λ app _ _. app };

    fn turn(&mut self, _input: &[u64], output: &mut [u64]) {
        output.fill(0);
        self.own.raised.store(true, Ordering::SeqCst);
        if is_raised(&self.other.raised) {
            self.own.met.store(true, Ordering::SeqCst);
        }
    }
}

/// Whether a flag is raised by the last look.
fn is_raised(flag: &AtomicBool) -> bool {
    for _ in 0..LOOKS {
        if flag.load(Ordering::SeqCst) {
            return true;
        }
    }
    false
}

/// Two applications that meet by these flags.
pub fn pair_of<'a>(
    alloc: Global,
    first: &'a Flag,
    second: &'a Flag,
) -> Result<Items<Meeting<'a>>, NoMemory>
    ensures { IfOk result (λ apps. length apps ≡ 2) }
{
    let mut apps = Items::new(alloc);
    apps.push(Meeting {
        own: first,
        other: second,
    })?;
    apps.push(Meeting {
        own: second,
        other: first,
    })?;
    Ok(apps)
}
