//! A turn of an application.

use io_buffers::taken::Taken;
use irt_base::list::Items;

/// What an application did in a turn.
#[derive(Drop)]
pub struct Turn {
    /// How many cycles were done.
    pub found: u32,
    /// The take from its input exchange, and the words taken.
    pub taken: Taken,
    pub input: Items<u64>,
    /// The words that it published.
    pub output: Items<u64>,
}
