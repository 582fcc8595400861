//! The search of a frame in a block.

ghost use Rattle.std.specs.Prelude.{◌≡◌};
ghost use Rattle.std.specs.List.Sorted.{IsStrictlyIncreasing};
ghost use Rattle.irt_base.specs.Valid.{frames_of};
ghost use Rattle.irt_window.specs.Search.{IsEntryIndex};

use irt_base::blocks::Entry;
use irt_base::numbers::FrameId;

/// The place of a frame's entry in a block, whose FrameIDs ascend. `None` comes exactly where it has none.
pub fn entry_index(entries: &[Entry], frame: FrameId) -> Option<usize>
    requires { IsStrictlyIncreasing (frames_of entries.now) }
    ensures { IsEntryIndex entries.now frame.0 result }
{
    let mut low = 0;
    let mut high = entries.len();
    while low < high {
        let middle = low + (high - low) / 2;
        let entry = entries[middle];
        if entry.frame.0 == frame.0 {
            return Some(middle);
        }
        if entry.frame.0 < frame.0 {
            low = middle + 1;
        } else {
            high = middle;
        }
    }
    None
}
