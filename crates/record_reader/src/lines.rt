//! Reading a line.

ghost use Rattle.std.specs.Prelude.{◌≡◌, ◌≤◌, length};
ghost use Rattle.irt_base.specs.declared.limits.TheConstants.{MAX_DEMANDS};
ghost use Rattle.record_reader.specs.Reading.{Gives, GivesForm, image_read, last_read, line_of_letter, line_read, row_line_read, take_read, turn_begin_read, turn_read, turn_words_read};

use crate::fault::{Form, LineFault};
use crate::field::{after_byte, read_device, read_number, read_taken};
use crate::row::{read_begin, read_row};
use crate::words::{input_words, output_words, read_words};
use io_buffers::taken::Taken;
use irt_base::list::Items;
use irt_base::numbers::DevId;
use irt_base::plants::Plant;
use iso_rules::turn::Turn;
use record_laws::line::Line;
use record_text::record::Take;
use std::alloc::Global;

/// Reads a line of a plant's record, with the LF that ends it, and gives the bytes after it.
pub(crate) fn read_line<'a>(
    alloc: Global,
    plant: &Plant,
    bytes: &'a [u8],
) -> Result<(Line, &'a [u8]), LineFault>
    requires devices { length plant.now.devices ≤ 256 }
    requires demands { length plant.now.demands ≤ MAX_DEMANDS }
    ensures { Gives (λ x. (x.0, x.1.now)) result (line_read plant.now bytes.now) }
{
    match bytes {
        [letter, rest @ ..] => read_of_letter(alloc, plant, *letter, rest),
        _ => Err(LineFault::Form),
    }
}

fn read_of_letter<'a>(
    alloc: Global,
    plant: &Plant,
    letter: u8,
    bytes: &'a [u8],
) -> Result<(Line, &'a [u8]), LineFault>
    requires devices { length plant.now.devices ≤ 256 }
    requires demands { length plant.now.demands ≤ MAX_DEMANDS }
    ensures { Gives (λ x. (x.0, x.1.now)) result (line_of_letter plant.now letter bytes.now) }
{
    match letter {
        b'g' => read_take(alloc, plant, bytes),
        b'i' => read_image(alloc, plant, bytes),
        b'u' => read_turn(alloc, plant, bytes),
        b'e' => Ok(read_last(bytes)?),
        _ => Ok(read_row_line(plant, letter, bytes)?),
    }
}

#[tactic(auto, unfolding(crate::specs::Reading::take_read))]
fn read_take<'a>(
    alloc: Global,
    plant: &Plant,
    bytes: &'a [u8],
) -> Result<(Line, &'a [u8]), LineFault>
    requires devices { length plant.now.devices ≤ 256 }
    requires demands { length plant.now.demands ≤ MAX_DEMANDS }
    ensures { Gives (λ x. (x.0, x.1.now)) result (take_read plant.now bytes.now) }
{
    let (cycle, device, rest) = read_begin(plant, bytes)?;
    let (taken, rest) = read_taken(rest)?;
    let (words, rest) = read_words(alloc, rest, output_words(plant, device))?;
    let rest = after_byte(rest, b'\n')?;
    let take = Take::new(taken, words);
    Ok((
        Line::Take {
            cycle,
            device,
            take,
        },
        rest,
    ))
}

#[tactic(auto, unfolding(crate::specs::Reading::image_read))]
fn read_image<'a>(
    alloc: Global,
    plant: &Plant,
    bytes: &'a [u8],
) -> Result<(Line, &'a [u8]), LineFault>
    requires devices { length plant.now.devices ≤ 256 }
    requires demands { length plant.now.demands ≤ MAX_DEMANDS }
    ensures { Gives (λ x. (x.0, x.1.now)) result (image_read plant.now bytes.now) }
{
    let (cycle, device, rest) = read_begin(plant, bytes)?;
    let (words, rest) = read_words(alloc, rest, input_words(plant, device))?;
    let rest = after_byte(rest, b'\n')?;
    Ok((
        Line::Image {
            cycle,
            device,
            words,
        },
        rest,
    ))
}

#[tactic(auto, unfolding(crate::specs::Reading::turn_read))]
fn read_turn<'a>(
    alloc: Global,
    plant: &Plant,
    bytes: &'a [u8],
) -> Result<(Line, &'a [u8]), LineFault>
    requires devices { length plant.now.devices ≤ 256 }
    requires demands { length plant.now.demands ≤ MAX_DEMANDS }
    ensures { Gives (λ x. (x.0, x.1.now)) result (turn_read plant.now bytes.now) }
{
    let (device, rest) = read_device(plant, bytes)?;
    let (number, found, taken, rest) = read_turn_begin(rest)?;
    let (input, output, rest) = read_turn_words(alloc, plant, device, rest)?;
    let turn = Turn {
        found,
        taken,
        input,
        output,
    };
    Ok((
        Line::Turn {
            device,
            number,
            turn,
        },
        rest,
    ))
}

/// A turn without its words: its number, how many cycles it found, and what it took.
#[tactic(auto, unfolding(crate::specs::Reading::turn_begin_read))]
fn read_turn_begin(bytes: &[u8]) -> Result<(u64, u32, Taken, &[u8]), Form>
    ensures { GivesForm (λ x. ((x.0, x.1, x.2), x.3.now)) result (turn_begin_read bytes.now) }
{
    let (number, rest) = read_number(bytes, u64::MAX)?;
    let (found, rest) = read_number(rest, 4294967295)?;
    let (taken, rest) = read_taken(rest)?;
    Ok((number, found as u32, taken, rest))
}

/// The words of a turn's input and output, and the line's end.
#[tactic(auto, unfolding(crate::specs::Reading::turn_words_read))]
fn read_turn_words<'a>(
    alloc: Global,
    plant: &Plant,
    device: DevId,
    bytes: &'a [u8],
) -> Result<(Items<u64>, Items<u64>, &'a [u8]), LineFault>
    requires { length plant.now.demands ≤ MAX_DEMANDS }
    ensures { Gives (λ x. ((x.0, x.1), x.2.now)) result (turn_words_read plant.now device bytes.now) }
{
    let (input, rest) = read_words(alloc, bytes, input_words(plant, device))?;
    let rest = after_byte(rest, b' ')?;
    let rest = after_byte(rest, b':')?;
    let (output, rest) = read_words(alloc, rest, output_words(plant, device))?;
    let rest = after_byte(rest, b'\n')?;
    Ok((input, output, rest))
}

/// The last line, after its `e`.
#[tactic(auto, unfolding(crate::specs::Reading::last_read))]
fn read_last(bytes: &[u8]) -> Result<(Line, &[u8]), Form>
    ensures { GivesForm (λ x. (x.0, x.1.now)) result (last_read bytes.now) }
{
    let rest = after_byte(bytes, b'n')?;
    let rest = after_byte(rest, b'd')?;
    let (cycles, rest) = read_number(rest, 4294967295)?;
    let (occupied, rest) = read_number(rest, u64::MAX)?;
    let (delivered, rest) = read_number(rest, u64::MAX)?;
    let (dropped, rest) = read_number(rest, u64::MAX)?;
    let rest = after_byte(rest, b'\n')?;
    Ok((
        Line::Last {
            cycles: cycles as u32,
            occupied,
            delivered,
            dropped,
        },
        rest,
    ))
}

fn read_row_line<'a>(plant: &Plant, letter: u8, bytes: &'a [u8]) -> Result<(Line, &'a [u8]), Form>
    requires { length plant.now.devices ≤ 256 }
    ensures { GivesForm (λ x. (x.0, x.1.now)) result (row_line_read plant.now letter bytes.now) }
{
    let (row, rest) = read_row(plant, letter, bytes)?;
    Ok((Line::Row(row), rest))
}
