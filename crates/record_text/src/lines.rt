//! The lines of an app.

ghost use Rattle.std.specs.Prelude.{◌≡◌, ◌++◌, OnOk};
ghost use Rattle.record_text.specs.Text.{image_line, part_lines, take_line, turn_begin, turn_line, turn_lines};

use crate::fields::{name_of, put_begin, put_bytes, put_number, put_taken, put_words};
use crate::part::Part;
use crate::record::{AppRecord, Take};
use irt_base::memory::NoMemory;
use irt_base::numbers::DevId;
use irt_base::plants::Plant;
use iso_rules::turn::Turn;

/// The lines of an app in a part of the text.
pub fn put_part(
    out: &mut Vec<u8>,
    plant: &Plant,
    part: Part,
    device: DevId,
    log: &AppRecord,
) -> Result<(), NoMemory>
    ensures { OnOk result (out.new.items ≡ out.old.items ++ part_lines plant.now part device.0 log.now) }
{
    match part {
        Part::Takes(k) => match log.takes().get(k as usize) {
            Some(take) => put_take(out, plant, k, device, take),
            None => Ok(()),
        },
        Part::Images(k) => match log.images().get(k as usize) {
            Some(words) => put_image(out, plant, k, device, words.as_slice()),
            None => Ok(()),
        },
        Part::Turns => put_turns(out, plant, device, log.turns()),
    }
}

fn put_take(
    out: &mut Vec<u8>,
    plant: &Plant,
    k: u32,
    device: DevId,
    take: &Take,
) -> Result<(), NoMemory>
    ensures { OnOk result (out.new.items ≡ out.old.items ++ take_line plant.now k device.0 take.now) }
{
    put_begin(out, plant, b'g', k, device)?;
    put_taken(out, take.taken())?;
    put_words(out, take.words())?;
    put_bytes(out, b"\n")
}

fn put_image(
    out: &mut Vec<u8>,
    plant: &Plant,
    k: u32,
    device: DevId,
    words: &[u64],
) -> Result<(), NoMemory>
    ensures { OnOk result (out.new.items ≡ out.old.items ++ image_line plant.now k device.0 words.now) }
{
    put_begin(out, plant, b'i', k, device)?;
    put_words(out, words)?;
    put_bytes(out, b"\n")
}

fn put_turns(
    out: &mut Vec<u8>,
    plant: &Plant,
    device: DevId,
    turns: &[Turn],
) -> Result<(), NoMemory>
    ensures { OnOk result (out.new.items ≡ out.old.items ++ turn_lines plant.now device.0 0 turns.now) }
{
    for (number, turn) in turns.iter().enumerate() {
        put_turn(out, plant, device, number as u64, turn)?;
    }
    Ok(())
}

fn put_turn(
    out: &mut Vec<u8>,
    plant: &Plant,
    device: DevId,
    number: u64,
    turn: &Turn,
) -> Result<(), NoMemory>
    ensures { OnOk result (out.new.items ≡ out.old.items ++ turn_line plant.now device.0 number turn.now) }
{
    put_turn_begin(out, plant, device, number, turn)?;
    put_words(out, turn.input.as_slice())?;
    put_bytes(out, b" :")?;
    put_words(out, turn.output.as_slice())?;
    put_bytes(out, b"\n")
}

fn put_turn_begin(
    out: &mut Vec<u8>,
    plant: &Plant,
    device: DevId,
    number: u64,
    turn: &Turn,
) -> Result<(), NoMemory>
    ensures { OnOk result (out.new.items ≡ out.old.items ++ turn_begin plant.now device.0 number turn.now) }
{
    put_bytes(out, b"u ")?;
    put_bytes(out, name_of(plant, device))?;
    put_number(out, number)?;
    put_number(out, u64::from(turn.found))?;
    put_taken(out, turn.taken)
}
