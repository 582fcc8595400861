//! From words to what they ask for.

ghost use Rattle.std.specs.Prelude.{◌≡◌, ◌≢◌, ◌≤◌, None, IfOk, IfSome, codes, option_map};
ghost use Rattle.clap.specs.Words.{first_of, found_of, kind_of, rows_of, subcommand_rows_of};
ghost use Rattle.irt_words.specs.Asked.{texts_of, file_in, number_in, cycles_in, seed_in, plan_in, check_in, show_in, sync_in, run_in, run_seed_in, run_world_in, gen_in, free_in, command_in, found_command, asked_of, as_file, as_number, as_within};
ghost use Rattle.irt_words.specs.Commands.{command_of};

use crate::asked::{Asked, MAX_SEED, MIN_GENERATED};
use crate::grammar::irt_command;
use clap::error::ErrorKind;
use clap::{ArgMatches, Error};
use irt_base::limits::{MAX_CYCLES, MAX_DEMANDS, MAX_DEVICES};
use irt_base::memory::NoMemory;
use irt_base::texts::read_decimal;
use std::alloc::Global;

/// What the words after the program's name ask for, if anything. It fails for memory alone.
pub fn read_words<'a>(alloc: Global, words: &'a [String]) -> Result<Option<Asked<'a>>, NoMemory>
    ensures { IfOk result (λ asked. option_map command_of asked ≡ asked_of (texts_of words.entry.now)) }
{
    match irt_command(alloc)?.try_get_matches_from(words) {
        Ok(matches) => Ok(asked_by(&matches)),
        Err(error) => refused(&error),
    }
}

/// Words in which `clap` finds a fault ask for nothing.
fn refused<'a>(error: &Error) -> Result<Option<Asked<'a>>, NoMemory>
    ensures { IfOk result (λ asked. (asked ≡ None) × (kind_of error.now ≢ ErrorKind.OutOfMemory)) }
{
    if error.kind() == ErrorKind::OutOfMemory {
        Err(NoMemory)
    } else {
        Ok(None)
    }
}

/// What the subcommand asks for that was found.
fn asked_by<'a>(matches: &ArgMatches<'a>) -> Option<Asked<'a>>
    ensures { option_map command_of result ≡ found_command (subcommand_rows_of matches.now) }
{
    let (name, found) = matches.subcommand()?;
    command(name, found)
}

/// What a subcommand of this name asks for.
fn command<'a>(name: &str, found: &ArgMatches<'a>) -> Option<Asked<'a>>
    ensures { option_map command_of result ≡ command_in name.now (rows_of (found_of found.now)) }
{
    match name {
        "plan" => plan(found),
        "check" => check(found),
        "show" => show(found),
        "sync" => sync(found),
        "run" => run(found),
        "gen" => generated(found),
        "free" => free(found),
        _ => None,
    }
}

fn plan<'a>(found: &ArgMatches<'a>) -> Option<Asked<'a>>
    ensures { option_map command_of result ≡ plan_in (rows_of (found_of found.now)) }
{
    let plant = file(found, "plant")?;
    Some(Asked::Plan { plant })
}

fn check<'a>(found: &ArgMatches<'a>) -> Option<Asked<'a>>
    ensures { option_map command_of result ≡ check_in (rows_of (found_of found.now)) }
{
    let plant = file(found, "plant")?;
    Some(Asked::Check { plant })
}

fn show<'a>(found: &ArgMatches<'a>) -> Option<Asked<'a>>
    ensures { option_map command_of result ≡ show_in (rows_of (found_of found.now)) }
{
    let file = file(found, "file")?;
    Some(Asked::Show { file })
}

fn sync<'a>(found: &ArgMatches<'a>) -> Option<Asked<'a>>
    ensures { option_map command_of result ≡ sync_in (rows_of (found_of found.now)) }
{
    let plant = file(found, "plant")?;
    let cycles = cycles(found)?;
    let seed = seed(found)?;
    Some(Asked::Sync {
        plant,
        cycles,
        seed,
    })
}

/// Exactly one of a seed and a world's file.
fn run<'a>(found: &ArgMatches<'a>) -> Option<Asked<'a>>
    ensures { option_map command_of result ≡ run_in (rows_of (found_of found.now)) }
{
    match (text(found, "world"), text(found, "seed")) {
        (Some(_), Some(_)) => None,
        (Some(_), None) => run_world(found),
        (None, _) => run_seed(found),
    }
}

fn run_seed<'a>(found: &ArgMatches<'a>) -> Option<Asked<'a>>
    ensures { option_map command_of result ≡ run_seed_in (rows_of (found_of found.now)) }
{
    let plant = file(found, "plant")?;
    let cycles = cycles(found)?;
    let seed = seed(found)?;
    Some(Asked::Run {
        plant,
        cycles,
        seed,
    })
}

fn run_world<'a>(found: &ArgMatches<'a>) -> Option<Asked<'a>>
    ensures { option_map command_of result ≡ run_world_in (rows_of (found_of found.now)) }
{
    let plant = file(found, "plant")?;
    let cycles = cycles(found)?;
    let world = file(found, "world")?;
    Some(Asked::RunWorld {
        plant,
        cycles,
        world,
    })
}

fn generated<'a>(found: &ArgMatches<'a>) -> Option<Asked<'a>>
    ensures { option_map command_of result ≡ gen_in (rows_of (found_of found.now)) }
{
    let seed = seed(found)?;
    let devices = number(found, "devices", MIN_GENERATED as u64, MAX_DEVICES as u64)?;
    let frames = number(found, "frames", 0, MAX_DEMANDS as u64)?;
    let name = file(found, "name")?;
    Some(Asked::Gen {
        seed,
        devices: devices as u16,
        frames: frames as u16,
        name,
    })
}

fn free<'a>(found: &ArgMatches<'a>) -> Option<Asked<'a>>
    ensures { option_map command_of result ≡ free_in (rows_of (found_of found.now)) }
{
    let plant = file(found, "plant")?;
    let cycles = cycles(found)?;
    let seed = seed(found)?;
    Some(Asked::Free {
        plant,
        cycles,
        seed,
    })
}

/// A number of cycles.
fn cycles(found: &ArgMatches<'_>) -> Option<u32>
    ensures { result ≡ cycles_in (rows_of (found_of found.now)) }
{
    let cycles = number(found, "cycles", 1, u64::from(MAX_CYCLES))?;
    Some(cycles as u32)
}

fn seed(found: &ArgMatches<'_>) -> Option<u64>
    ensures { result ≡ seed_in (rows_of (found_of found.now)) }
{
    number(found, "seed", 0, MAX_SEED)
}

/// The text that stands for an argument.
fn text<'a>(found: &ArgMatches<'a>, name: &str) -> Option<&'a str>
    ensures { option_map (λ text. text.now) result ≡ first_of name.now (rows_of (found_of found.now)) }
{
    found.get_str(name)
}

/// The name of a file, which is not empty.
fn file<'a>(found: &ArgMatches<'a>, name: &str) -> Option<&'a str>
    ensures { option_map (λ file. file.now) result ≡ file_in name.now (rows_of (found_of found.now)) }
{
    let text = text(found, name)?;
    file_name(text)
}

fn file_name<'a>(text: &'a str) -> Option<&'a str>
    ensures { option_map (λ file. file.now) result ≡ as_file text.entry.now }
{
    if text.is_empty() { None } else { Some(text) }
}

/// A number from `least` to `most`.
fn number(found: &ArgMatches<'_>, name: &str, least: u64, most: u64) -> Option<u64>
    ensures value { result ≡ number_in name.now least most (rows_of (found_of found.now)) }
    ensures within { IfSome result (λ n. n ≤ most) }
{
    let text = text(found, name)?;
    let number = decimal(text.as_bytes())?;
    within(least, most, number)
}

/// A number of 64 bits, as it is printed.
fn decimal(text: &[u8]) -> Option<u64>
    ensures { result ≡ as_number text.now }
{
    read_decimal(text)
}

fn within(least: u64, most: u64, number: u64) -> Option<u64>
    ensures value { result ≡ as_within least most number }
    ensures within { IfSome result (λ n. n ≤ most) }
{
    if least <= number && number <= most {
        Some(number)
    } else {
        None
    }
}
