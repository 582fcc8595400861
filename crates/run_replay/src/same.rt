//! Whether a record has the images and the rows that a plant left.

ghost use Rattle.std.specs.Prelude.{◌≡◌, ◌↔◌, IsTrue};

use cycle_rows::rows::JournalRow;
use irt_base::list::Items;

/// Whether these are the same rows.
pub fn are_same_rows(rows: &[JournalRow], others: &[JournalRow]) -> bool
    ensures { IsTrue result ↔ (rows.now ≡ others.now) }
{
    rows == others
}

/// Whether these are the same words.
fn are_same_words(words: &[u64], others: &[u64]) -> bool
    ensures { IsTrue result ↔ (words.now ≡ others.now) }
{
    words == others
}

/// Whether these are the same images.
pub fn are_same_images(images: &[Items<u64>], others: &[Items<u64>]) -> bool
    ensures { IsTrue result ↔ (images.now ≡ others.now) }
{
    if images.len() != others.len() {
        return false;
    }
    for index in 0..images.len() {
        if !are_same_words(images[index].as_slice(), others[index].as_slice()) {
            return false;
        }
    }
    true
}
