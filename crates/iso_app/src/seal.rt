//! How output words are published.

ghost use Rattle.std.specs.Prelude.{◌≡◌};
ghost use Rattle.iso_app.specs.Sealed.{sealed, sealed_frame, good_word};

/// The provider status IOPS of good data: bit 7, DataState, is 1 (IEC 61158-6-10).
pub const GOOD: u64 = 0x80;

/// Seals the output words of frames that follow one another: the low byte of each frame's last word,
/// its IOPS, becomes `GOOD`, and all else stays. `lengths` are the frames' lengths in words.
pub fn seal(words: &mut [u64], lengths: &[u16])
    ensures { words.new ≡ sealed lengths.now words.old }
{
    let mut start = 0;
    for length in lengths {
        let end = start + usize::from(*length).min(words.len() - start);
        seal_frame(&mut words[start..end]);
        start = end;
    }
}

/// Seals the last word of a frame, where it has one.
fn seal_frame(words: &mut [u64])
    ensures { words.new ≡ sealed_frame words.old }
{
    if !words.is_empty() {
        let last = words.len() - 1;
        words[last] = sealed_word(words[last]);
    }
}

/// A word with its low byte set to `GOOD`.
fn sealed_word(word: u64) -> u64
    ensures { result ≡ good_word word }
{
    word - word % 256 + GOOD
}
