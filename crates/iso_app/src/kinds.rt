//! The kinds of application that a plant names.

ghost use Rattle.std.specs.Prelude.{◌≡◌, length, min};
ghost use Rattle.iso_app.specs.Kinds.{kind_of, reply_of, state_after, word_at, filled, first_only, moved};

use crate::apps::IsoApp;
use irt_base::plants::{App, AppName};

/// An application of a plant, with its state. An input word that isn't there counts as 0; an output
/// word that isn't there is not written, and the output words that a kind doesn't name are 0.
#[derive(Clone, Copy, Debug, PartialEq, Eq)]
pub enum AppKind {
    /// Gives each input word as the output word of the same place.
    Copy,
    /// Counts its turns from 1 on, wrapping, and gives the count as word 0.
    Counter { count: u64 },
    /// Moves its value towards input word 0 by at most `step`, and gives it as word 0.
    Follow { value: u64, step: u32 },
    /// Gives the lesser of input word 0 and `limit` as word 0.
    Limit { limit: u32 },
}

impl AppKind {
    /// The application of a plant's entry, before its first turn.
    pub fn of(app: &App) -> AppKind
        ensures { result ≡ kind_of app.now }
    {
        match app.kind {
            AppName::Copy => AppKind::Copy,
            AppName::Counter => AppKind::Counter { count: 0 },
            AppName::Follow => AppKind::Follow {
                value: 0,
                step: app.param,
            },
            AppName::Limit => AppKind::Limit { limit: app.param },
        }
    }
}

impl IsoApp for AppKind {
    ghost reply = { reply_of };

    ghost next_state = { λ app input _. state_after app input };

    fn turn(&mut self, input: &[u64], output: &mut [u64]) {
        match *self {
            AppKind::Copy => copy_words(input, output),
            AppKind::Counter { count } => {
                let count = count.wrapping_add(1);
                put_first(output, count);
                *self = AppKind::Counter { count };
            }
            AppKind::Follow { value, step } => {
                let value = moved(value, first_word(input), step);
                put_first(output, value);
                *self = AppKind::Follow { value, step };
            }
            AppKind::Limit { limit } => put_first(output, first_word(input).min(u64::from(limit))),
        }
    }
}

/// Copies words, with zeros behind them.
fn copy_words(input: &[u64], output: &mut [u64])
    ensures { output.new ≡ filled (length output.old) input.now }
{
    output.fill(0);
    let count = input.len().min(output.len());
    output[..count].copy_from_slice(&input[..count]);
}

/// Writes a word at place 0, where there is one, with zeros behind it.
fn put_first(output: &mut [u64], word: u64)
    ensures { output.new ≡ first_only (length output.old) word }
{
    output.fill(0);
    if !output.is_empty() {
        output[0] = word;
    }
}

/// Input word 0.
fn first_word(input: &[u64]) -> u64
    ensures { result ≡ word_at input.now 0 }
{
    if input.is_empty() { 0 } else { input[0] }
}

/// A value that went towards a target by at most a step.
fn moved(value: u64, target: u64, step: u32) -> u64
    ensures { result ≡ moved value target step }
{
    let step = u64::from(step);
    if value <= target {
        value + step.min(target - value)
    } else {
        value - step.min(value - target)
    }
}
