//! Whole rows, word by word, each by one atomic step.

ghost use Rattle.std.specs.Prelude.{◌≡◌, ◌+◌, ◌*◌, ◌<◌, ◌≤◌, [], length};
ghost use Rattle.io_buffers.specs.Steps.{steps_in, draft_of, part_of, front_of, loaded_in, with_stores, with_loads};
ghost use Rattle.io_buffers.specs.declared.views.View.TheVariants.{Producer, Consumer};
ghost use Rattle.irt_base.specs.declared.limits.TheConstants.{MAX_WORDS};

use crate::views::{Load, Store, ThreeSlots, View};
use atomic_table::{Seat, Shared};

/// Stores the words into the draft row, in order of place.
pub fn store_words(
    table: &Shared<u8, View, u16, ThreeSlots>,
    seat: &mut Seat<u8, View>,
    draft: usize,
    words: &[u64],
)
    requires own { seat.old.table_id ≡ table.now.table_id }
    requires sized { table.now.table_id.words ≡ 1 + 3 * length words.now }
    requires keyed { table.now.key ≡ length words.now }
    requires small { length words.now ≤ MAX_WORDS + 1 }
    requires seated { seat.old.me ≡ (Producer (steps_in seat.old.me.0), []) }
    requires drafted { draft ≡ draft_of (steps_in seat.old.me.0) }
    requires slot { draft < 3 }
    requires empty { part_of (steps_in seat.old.me.0) ≡ [] }
    ensures own { seat.new.table_id ≡ seat.old.table_id }
    ensures stored { seat.new.me ≡ (Producer (with_stores 0 words.now (steps_in seat.old.me.0)), []) }
{
    let first = 1 + words.len() * draft;
    for (place, word) in words.iter().enumerate() {
        table.store::<Store>(seat, first + place, *word);
    }
}

/// Loads the words of the front row, in order of place.
pub fn load_words(
    table: &Shared<u8, View, u16, ThreeSlots>,
    seat: &mut Seat<u8, View>,
    front: usize,
    out: &mut [u64],
)
    requires own { seat.old.table_id ≡ table.now.table_id }
    requires sized { table.now.table_id.words ≡ 1 + 3 * length out.old }
    requires keyed { table.now.key ≡ length out.old }
    requires small { length out.old ≤ MAX_WORDS + 1 }
    requires seated { seat.old.me ≡ (Consumer (steps_in seat.old.me.0), []) }
    requires fronted { front ≡ front_of (steps_in seat.old.me.0) }
    requires slot { front < 3 }
    requires empty { loaded_in (steps_in seat.old.me.0) ≡ [] }
    ensures own { seat.new.table_id ≡ seat.old.table_id }
    ensures loaded { seat.new.me ≡ (Consumer (with_loads 0 out.new (steps_in seat.old.me.0)), []) }
{
    let first = 1 + out.len() * front;
    for place in 0..out.len() {
        out[place] = table.load::<Load>(seat, first + place);
    }
}
