//! What an application is.

ghost use Rattle.std.specs.Prelude.{◌≡◌, ℕ, List, length};

/// An application. A word is eight bytes of a frame's data, read big-endian.
pub trait IsoApp: Drop {
    /// The output words, by the state, the input words and how many output words there are.
    ghost reply: { Self → List ℕ → ℕ → List ℕ };

    /// The state after a turn, by the same.
    ghost next_state: { Self → List ℕ → ℕ → Self };

    /// Makes a turn: writes every output word, and takes the next state.
    fn turn(&mut self, input: &[u64], output: &mut [u64])
        ensures reply { output.new ≡ reply self.old input.now (length output.old) }
        ensures next { self.new ≡ next_state self.old input.now (length output.old) };
}
