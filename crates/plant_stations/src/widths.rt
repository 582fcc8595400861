//! How many words a device sends and receives in a cycle.

ghost use Rattle.std.specs.Prelude.{◌≡◌, ◌≤◌, ℕ, List, Some, length, slice_get};
ghost use Rattle.irt_base.specs.Valid.{IsBundle};
ghost use Rattle.irt_base.specs.declared.limits.TheConstants.{MAX_DEMANDS};
ghost use Rattle.irt_base.specs.declared.blocks.Bundle.{Bundle};
ghost use Rattle.irt_base.specs.declared.plants.Plant.{Plant};
ghost use Rattle.iso_rules.specs.Station.{consumed_of, data_words, provided_of, words_in, input_count, output_count};
ghost use Rattle.plan_rules.specs.Plan.{setup_of};

use irt_base::blocks::{Bundle, Entry};
use irt_base::limits::WORD_BYTES;

/// The words of all frames that a device provides, which its app puts out in a turn.
pub fn output_words(bundle: &Bundle) -> usize
    requires { IsBundle bundle.now }
    ensures words { result ≡ words_in (provided_of bundle.now.frames.entries) }
    ensures setup { (plant : Plant) (bundles : List Bundle) (device : ℕ) → slice_get bundles device ≡ Some bundle.now →
        result ≡ output_count (setup_of plant bundles) device }
{
    provided_words(bundle.frames.entries.as_slice())
}

/// The words of all frames that a device consumes, which its app takes in.
pub fn input_words(bundle: &Bundle) -> usize
    requires { IsBundle bundle.now }
    ensures words { result ≡ words_in (consumed_of bundle.now.frames.entries) }
    ensures setup { (plant : Plant) (bundles : List Bundle) (device : ℕ) → slice_get bundles device ≡ Some bundle.now →
        result ≡ input_count (setup_of plant bundles) device }
{
    consumed_words(bundle.frames.entries.as_slice())
}

fn provided_words(entries: &[Entry]) -> usize
    requires { length entries.now ≤ MAX_DEMANDS }
    ensures { result ≡ words_in (provided_of entries.now) }
{
    let mut words = 0;
    for entry in entries {
        if entry.rx_port == 0 {
            words += words_of_data(entry);
        }
    }
    words
}

fn consumed_words(entries: &[Entry]) -> usize
    requires { length entries.now ≤ MAX_DEMANDS }
    ensures { result ≡ words_in (consumed_of entries.now) }
{
    let mut words = 0;
    for entry in entries {
        if entry.tx % 2 == 1 {
            words += words_of_data(entry);
        }
    }
    words
}

/// The words of a frame's data.
fn words_of_data(entry: &Entry) -> usize
    ensures words { result ≡ data_words entry.now }
    ensures few { result ≤ 8191 }
{
    usize::from(entry.data_length) / WORD_BYTES
}
