//! The steps of the two sides, and what each sees.

/// A step of the producer (`Store`, `Publish`) or of the consumer (`Probe`, `Take`, `Load`). Places count
/// from 0.
#[derive(Clone, Copy, PartialEq, Eq)]
pub enum Step {
    /// Writes a word of the draft row.
    Store { place: u16, word: u64 },
    /// Makes the draft row the newest publication.
    Publish,
    /// Looks whether there is a publication newer than the one held.
    Probe,
    /// Takes the newest publication, where the last probe saw one.
    Take,
    /// Reads a word of the row held.
    Load { place: u16 },
}

/// What a step sees.
#[derive(Clone, Copy, Debug, PartialEq, Eq)]
pub enum Seen {
    /// The word was stored.
    Stored,
    /// The draft row is the publication of this number, from 1.
    Published { number: u64 },
    /// Whether there is a newer publication than the one held.
    Probed { fresh: bool },
    /// The publication of this number is held now.
    Took { number: u64 },
    /// The word at the place.
    Word { word: u64 },
    /// The step was refused and changed nothing: the row has no such place, or no probe since the last take
    /// saw a newer publication.
    Nothing,
}
