//! Reading a line.

ghost use Rattle.std.specs.Prelude.{◌≡◌, ◌≤◌, ◌^◌, length};
ghost use Rattle.world_file.specs.Reading.{Gives, GivesForm, after_letter, delays_read, errors_read, line_read, links_read};

use crate::draft::Draft;
use crate::fault::{Form, LineFault};
use crate::number::{after_byte, read_number};
use irt_base::plants::{Device, Plant};
use irt_world::forwardings::Forwarding;

/// Reads a line of a plant's row, with the LF that ends it, and gives the bytes after it.
#[tactic(auto, unfolding(crate::specs::Reading::line_read))]
pub(crate) fn read_line<'a>(
    draft: &mut Draft,
    bytes: &'a [u8],
    plant: &Plant,
    forwardings: &[Forwarding],
) -> Result<&'a [u8], LineFault>
    requires { length plant.now.links ≤ 2 ^ 16 }
    ensures { Gives (λ rest. (draft.new, rest.now)) result
        (line_read plant.now.devices forwardings.now (length plant.now.links) draft.old bytes.now) }
{
    let rest = after_byte(bytes, b'E')?;
    let rest = read_errors(draft, rest, plant.devices.as_slice())?;
    let rest = after_letter(rest, b'B')?;
    let rest = read_delays(draft, rest, forwardings)?;
    let rest = after_letter(rest, b'C')?;
    read_links(draft, rest, plant.links.len())
}

fn after_letter(bytes: &[u8], letter: u8) -> Result<&[u8], Form>
    ensures { GivesForm (λ rest. rest.now) result (after_letter letter bytes.now) }
{
    after_byte(after_byte(bytes, b' ')?, letter)
}

fn read_errors<'a>(
    draft: &mut Draft,
    bytes: &'a [u8],
    devices: &[Device],
) -> Result<&'a [u8], LineFault>
    ensures { Gives (λ rest. (draft.new, rest.now)) result (errors_read devices.now draft.old bytes.now) }
{
    let mut rest = bytes;
    for _ in devices {
        let (number, after) = read_number(rest)?;
        draft.take_error(number)?;
        rest = after;
    }
    Ok(rest)
}

fn read_delays<'a>(
    draft: &mut Draft,
    bytes: &'a [u8],
    forwardings: &[Forwarding],
) -> Result<&'a [u8], LineFault>
    ensures { Gives (λ rest. (draft.new, rest.now)) result (delays_read forwardings.now draft.old bytes.now) }
{
    let mut rest = bytes;
    for forwarding in forwardings {
        let (number, after) = read_number(rest)?;
        draft.take_delay(*forwarding, number)?;
        rest = after;
    }
    Ok(rest)
}

/// Reads cut links up to the LF. They are fewer than the bytes.
fn read_links<'a>(draft: &mut Draft, bytes: &'a [u8], links: usize) -> Result<&'a [u8], LineFault>
    requires { links ≤ 2 ^ 16 }
    ensures { Gives (λ rest. (draft.new, rest.now)) result
        (links_read links (length bytes.now) draft.old bytes.now) }
{
    let mut rest = bytes;
    for _ in 0..bytes.len() {
        if let Ok(after) = after_byte(rest, b'\n') {
            return Ok(after);
        }
        let (number, after) = read_number(rest)?;
        draft.take_link(links as u64, number)?;
        rest = after;
    }
    Err(LineFault::Form)
}
