//! The fields of a line, each behind a space.

ghost use Rattle.std.specs.Prelude.{◌≡◌, ◌++◌, OnOk};
ghost use Rattle.irt_trace.specs.Journal.{begin_of, field, name_of};
ghost use Rattle.record_text.specs.Text.{flag_field, taken_fields, word_field, words_text};

use io_buffers::taken::Taken;
use irt_base::memory::NoMemory;
use irt_base::numbers::DevId;
use irt_base::plants::Plant;
use irt_base::texts::{print_decimal, print_hex};

/// Appends bytes as they are.
pub fn put_bytes(out: &mut Vec<u8>, bytes: &[u8]) -> Result<(), NoMemory>
    ensures { OnOk result (out.new.items ≡ out.old.items ++ bytes.now) }
{
    out.extend_from_slice(bytes)?;
    Ok(())
}

/// A number.
pub fn put_number(out: &mut Vec<u8>, value: u64) -> Result<(), NoMemory>
    ensures { OnOk result (out.new.items ≡ out.old.items ++ field value) }
{
    let mut digits = [0; 20];
    let count = print_decimal(&mut digits, value);
    put_bytes(out, b" ")?;
    put_bytes(out, &digits[..count])
}

fn put_word(out: &mut Vec<u8>, word: u64) -> Result<(), NoMemory>
    ensures { OnOk result (out.new.items ≡ out.old.items ++ word_field word) }
{
    let mut digits = [0; 16];
    print_hex(&mut digits, word);
    put_bytes(out, b" ")?;
    put_bytes(out, &digits)
}

/// All words of a list.
pub fn put_words(out: &mut Vec<u8>, words: &[u64]) -> Result<(), NoMemory>
    ensures { OnOk result (out.new.items ≡ out.old.items ++ words_text words.now) }
{
    for word in words {
        put_word(out, *word)?;
    }
    Ok(())
}

fn put_flag(out: &mut Vec<u8>, flag: bool) -> Result<(), NoMemory>
    ensures { OnOk result (out.new.items ≡ out.old.items ++ flag_field flag) }
{
    if flag {
        put_bytes(out, b" 1")
    } else {
        put_bytes(out, b" 0")
    }
}

/// The answer of a take.
pub fn put_taken(out: &mut Vec<u8>, taken: Taken) -> Result<(), NoMemory>
    ensures { OnOk result (out.new.items ≡ out.old.items ++ taken_fields taken) }
{
    put_number(out, taken.number)?;
    put_flag(out, taken.fresh)?;
    put_flag(out, taken.in_window)
}

/// The letter of a line, the cycle and the device's name.
pub fn put_begin(
    out: &mut Vec<u8>,
    plant: &Plant,
    letter: u8,
    cycle: u32,
    device: DevId,
) -> Result<(), NoMemory>
    ensures { OnOk result (out.new.items ≡ out.old.items ++ begin_of plant.now letter cycle device.0) }
{
    put_bytes(out, &[letter])?;
    put_number(out, u64::from(cycle))?;
    put_bytes(out, b" ")?;
    put_bytes(out, name_of(plant, device))
}

/// The name of a device, nothing where the plant has no such device.
pub fn name_of(plant: &Plant, device: DevId) -> &[u8]
    ensures { result.now ≡ name_of plant.now device.0 }
{
    match plant.devices.get(usize::from(device.0)) {
        Some(found) => found.name.as_slice(),
        None => &[],
    }
}
