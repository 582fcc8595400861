//! The frames that a device provides.

ghost use Rattle.std.specs.Prelude.{◌≡◌, IfOk, map};
ghost use Rattle.iso_rules.specs.Station.{data_words, entries_at, output_lengths, provided_of};
ghost use Rattle.plan_rules.specs.Plan.{setup_of};

use irt_base::blocks::Entry;
use irt_base::limits::WORD_BYTES;
use irt_base::list::Items;
use irt_base::memory::NoMemory;
use irt_base::numbers::DevId;
use plan_check::accepted::Accepted;
use std::alloc::Global;

/// The words of each frame that a device provides, by ascending FrameID.
pub fn output_lengths(
    alloc: Global,
    accepted: &Accepted,
    device: DevId,
) -> Result<Items<u16>, NoMemory>
    ensures { IfOk result (λ lengths. lengths ≡
        output_lengths (setup_of accepted.now.plant accepted.now.bundles) device.0) }
{
    lengths_of(alloc, entries_at(accepted, device))
}

/// The entries of a device, none where there is no such device.
fn entries_at(accepted: &Accepted, device: DevId) -> &[Entry]
    ensures { result.now ≡ entries_at (setup_of accepted.now.plant accepted.now.bundles) device.0 }
{
    match accepted.bundles().get(usize::from(device.0)) {
        None => &[],
        Some(bundle) => bundle.frames.entries.as_slice(),
    }
}

/// The words of each of the frames that their device provides.
fn lengths_of(alloc: Global, entries: &[Entry]) -> Result<Items<u16>, NoMemory>
    ensures { IfOk result (λ lengths. lengths ≡ map data_words (provided_of entries.now)) }
{
    let mut lengths = Items::new(alloc);
    for entry in entries {
        if entry.rx_port == 0 {
            lengths.push(words_of(entry))?;
        }
    }
    Ok(lengths)
}

/// The words of a frame's data.
fn words_of(entry: &Entry) -> u16
    ensures { result ≡ data_words entry.now }
{
    entry.data_length / WORD_BYTES as u16
}
