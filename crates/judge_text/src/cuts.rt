//! Texts that are cut off after a line.

ghost use Rattle.std.specs.Prelude.{◌<◌, ◌≤◌, ◌^◌, ◌-◌, length};
ghost use Rattle.plant_rules.specs.Meets.{MeetsRules};

use irt_base::memory::NoMemory;
use irt_base::plants::Plant;
use record_reader::fault::RecordFault;
use record_reader::read_record;
use std::alloc::Global;

/// Most lines of a text that is cut: each cut is read from its begin.
const MOST_LINES: usize = 1000;

/// Whether a text has few enough lines.
pub fn is_short(text: &[u8]) -> bool {
    let mut lines = 0;
    for byte in text {
        if *byte == b'\n' && lines <= MOST_LINES {
            lines += 1;
        }
    }
    lines <= MOST_LINES
}

/// How many fronts of a text, each cut off where a line begins, are the text of no record.
pub fn refused_cuts(alloc: Global, plant: &Plant, text: &[u8]) -> Result<u64, NoMemory>
    requires rules { MeetsRules plant.now }
    requires short { length text.now < 2 ^ 32 - 1 }
{
    let mut refused = 0;
    for at in 0..text.len() {
        if begins_line(text, at) && !is_read(alloc, plant, &text[..at])? {
            refused += 1;
        }
    }
    Ok(refused)
}

/// Whether a line begins at a byte.
fn begins_line(text: &[u8], at: usize) -> bool
    requires { at ≤ length text.now }
{
    at == 0 || text[at - 1] == b'\n'
}

/// Whether a text is that of a record.
fn is_read(alloc: Global, plant: &Plant, text: &[u8]) -> Result<bool, NoMemory>
    requires rules { MeetsRules plant.now }
    requires short { length text.now < 2 ^ 32 - 1 }
{
    match read_record(alloc, plant, text) {
        Ok(_) => Ok(true),
        Err(RecordFault::Line(_)) => Ok(false),
        Err(RecordFault::NoMemory) => Err(NoMemory),
    }
}
