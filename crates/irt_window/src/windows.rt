//! The ways of a plan whose entries form trees.

ghost use Rattle.std.specs.Prelude.{◌≡◌, ◌≤◌, ◌<◌, ◌^◌, pos};
ghost use Rattle.irt_window.specs.Tables.{AreBeside, AreAscending, AreOrdered};

use irt_base::blocks::Entry;
use irt_base::list::Items;
use irt_base::memory::NoMemory;
use irt_base::numbers::DevId;
use plan_rules::place::Place;
use plan_rules::way::Way;
use thiserror::Error;

/// The ways of all entries of a plan, by device and place in its block.
#[derive(Drop)]
pub struct Windows {
    pub(crate) entries: Items<Items<Entry>>,
    pub(crate) ways: Items<Items<Way>>,
    ghost beside: { AreBeside entries ways },
    ghost ascending: { AreAscending entries },
    ghost ordered: { AreOrdered ways },
}

/// When a device sends a frame: its least and its greatest start, in ns of the local time of the anchor, which
/// is the nearest device on the way that starts the frame by a FrameSendOffset.
#[derive(Clone, Copy, PartialEq, Eq)]
pub struct Window {
    pub lo: i64,
    pub hi: i64,
    pub anchor: DevId,
}

/// Whether rule V2 holds.
#[derive(Drop)]
pub enum Trees {
    /// It does, and each entry has a way.
    Whole(Windows),
    /// It fails, first at this device and frame.
    Broken(Place),
}

/// The window of a way.
pub fn window_of(way: Way) -> Window
    requires ordered { way.lo ≤ way.hi }
    requires small { way.hi < 2 ^ 39 }
    ensures { result ≡ record { lo = pos way.lo; hi = pos way.hi; anchor = way.anchor } }
{
    Window {
        lo: way.lo as i64,
        hi: way.hi as i64,
        anchor: way.anchor,
    }
}

/// Why a plan has no windows.
#[derive(Clone, Copy, Debug, PartialEq, Eq, Error)]
pub enum WindowFault {
    #[error("out of memory")]
    NoMemory,
    /// Rule V2 fails.
    #[error("the entries of a frame form no tree")]
    NotATree,
}

impl From<NoMemory> for WindowFault {
    ghost use Rattle.irt_window.specs.declared.windows.WindowFault.TheVariants as faults;

    ghost from_gives = { λ _ e. e ≡ faults.NoMemory };

    fn from(_cause: NoMemory) -> WindowFault {
        WindowFault::NoMemory
    }
}
