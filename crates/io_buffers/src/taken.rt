//! What a take tells beside the words.

/// The answer of a take.
#[derive(Clone, Copy, Debug, PartialEq, Eq)]
pub struct Taken {
    /// The number of the publication whose words were given; 0 is the one of zeros.
    pub number: u64,
    /// There was a newer publication than the one held before.
    pub fresh: bool,
    /// At the end of the take there was still no newer publication.
    pub in_window: bool,
}
