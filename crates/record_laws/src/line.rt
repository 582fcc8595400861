//! The lines of a record's text.

use cycle_rows::rows::JournalRow;
use irt_base::list::Items;
use irt_base::numbers::DevId;
use iso_rules::turn::Turn;
use record_text::record::Take;

/// What a line says.
#[derive(Drop)]
pub enum Line {
    /// What was taken from the app on a device in a cycle.
    Take {
        cycle: u32,
        device: DevId,
        take: Take,
    },
    /// A row of the journal.
    Row(JournalRow),
    /// What was published to the app on a device in a cycle.
    Image {
        cycle: u32,
        device: DevId,
        words: Items<u64>,
    },
    /// A turn of the app on a device, and its number, from 0.
    Turn {
        device: DevId,
        number: u64,
        turn: Turn,
    },
    /// The numbers of cycles, occupations, deliveries and drops.
    Last {
        cycles: u32,
        occupied: u64,
        delivered: u64,
        dropped: u64,
    },
}
