//! Finding an entry.

ghost use Rattle.std.specs.Prelude.{◌≡◌, ◌==◌, find};
ghost use Rattle.std.specs.List.Sorted.{IsStrictlyIncreasing};
ghost use Rattle.std.specs.Option.{option_copied};
ghost use Rattle.irt_base.specs.Valid.{frames_of};
ghost use Rattle.irt_base.specs.declared.blocks.Entry.{Entry};

use irt_base::blocks::Entry;
use irt_base::numbers::FrameId;

/// The entry of a frame, in logarithmic time.
pub fn entry_of(entries: &[Entry], frame: FrameId) -> Option<&Entry>
    requires { IsStrictlyIncreasing (frames_of entries.now) }
    ensures { option_copied result ≡ find (λ (e : Entry). e.frame.0 == frame.0) entries.now }
{
    let place = entries.partition_point(|e| e.frame.0 < frame.0);
    let Some(entry) = entries.get(place) else {
        return None;
    };
    if entry.frame.0 == frame.0 {
        Some(entry)
    } else {
        None
    }
}
