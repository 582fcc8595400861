//! The parts of a record's text that have lines for each app.

/// Which lines: of what was taken in a cycle, of what was published in a cycle, or of all turns.
#[derive(Clone, Copy, PartialEq, Eq)]
pub enum Part {
    Takes(u32),
    Images(u32),
    Turns,
}
