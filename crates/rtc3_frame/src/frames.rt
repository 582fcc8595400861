//! Room for the frames of a plant's demands.

ghost use Rattle.std.specs.Prelude.{◌≡◌, ◌<◌, length, slice_get, slice_index_or, Some, IfOk, []};
ghost use Rattle.std.specs.Borrow.{sem, Lends, Array, u8 as byte};
ghost use Rattle.rtc3_frame.specs.contracts.frames.Frames.{the_row};
ghost use Rattle.rtc3_frame.specs.Frames.{zero_frames, with_frame};

use crate::frame::{HEAD, TAIL};
use irt_base::memory::NoMemory;
use std::alloc::Global;
use std::marker::Model;

/// One frame's bytes for each demand. A clause sees the list of them.
#[derive(Drop)]
pub struct Frames {
    frames: Vec<Vec<u8>>,
}

impl Model for Frames {
    ghost use Rattle.std.specs.Prelude.{List, ℕ, map};

    ghost Value = { List (List ℕ) };

    ghost view = { λ s. map (λ v. v.items) s.frames.items };
}

impl Frames {
    /// Frames of zeros for these data lengths, each with `HEAD + TAIL` bytes more.
    pub fn new(alloc: Global, lengths: &[u16]) -> Result<Frames, NoMemory>
        ensures { IfOk result (λ frames. frames ≡ zero_frames lengths.now) }
    {
        let mut frames = Vec::with_capacity(alloc, lengths.len())?;
        for length in lengths {
            let bytes = vec![in alloc; 0u8; usize::from(*length) + HEAD + TAIL]?;
            frames.push(bytes)?;
        }
        Ok(Frames { frames })
    }

    /// The bytes of a demand's frame.
    pub fn bytes(&self, demand: usize) -> &[u8]
        requires { demand < length self.now }
        ensures { slice_get self.now demand ≡ Some result.now }
    {
        self.frames[demand].as_slice()
    }

    /// The bytes of a demand's frame, to be written over. No other demand's change.
    pub fn bytes_mut(&mut self, demand: usize) -> &mut [u8]
        requires { demand < length self.old }
        ensures* lent { sem 𝓛 (Lends the_row (Array byte 0) self.entry result (with_frame self.old demand)) }
        ensures value { slice_get self.old demand ≡ Some result.now }
    {
        self.frames[demand].as_mut_slice()
    }
}
