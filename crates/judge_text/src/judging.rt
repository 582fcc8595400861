//! What is said of texts.

ghost use Rattle.std.specs.Prelude.{◌<◌, ◌^◌, ◌-◌, length};
ghost use Rattle.irt_route.specs.Routes.{IsRoutesOf};

use crate::cuts::{is_short, refused_cuts};
use crate::plan::load_plan;
use crate::words::Asked;
use irt_base::memory::NoMemory;
use irt_io::shelf::Shelf;
use irt_route::tables::Routes;
use irt_steps::load::load_file;
use irt_steps::stop::Stop;
use irt_top::run::{fit_size, walked};
use plan_check::accepted::Accepted;
use plan_run::law::worlds_and_walks_are_one;
use plan_run::run::kinds_of;
use plan_run::world::seed_world;
use record_reader::fault::RecordFault;
use record_reader::read_record;
use record_text::record::Record;
use run_judge::judge;
use std::alloc::Global;

/// Greatest size of a text, in bytes.
const TEXT_FILE: usize = 268435456;

/// The lines of all texts that are asked for.
pub fn judge_texts<S: Shelf>(
    alloc: Global,
    shelf: &mut S,
    asked: Asked<'_>,
) -> Result<Vec<u8>, Stop> {
    let accepted = load_plan(alloc, shelf, asked.plant)?;
    judge_plan(alloc, shelf, &accepted, asked)
}

/// The same of a plan that was accepted.
fn judge_plan<S: Shelf>(
    alloc: Global,
    shelf: &mut S,
    accepted: &Accepted,
    asked: Asked<'_>,
) -> Result<Vec<u8>, Stop> {
    let routes = walked(alloc, accepted)?;
    fit_size(alloc, accepted, &routes, asked.cycles)?;
    judge_files(alloc, shelf, accepted, &routes, asked)
}

/// The same along the plan's routes.
fn judge_files<S: Shelf>(
    alloc: Global,
    shelf: &mut S,
    accepted: &Accepted,
    routes: &Routes,
    asked: Asked<'_>,
) -> Result<Vec<u8>, Stop>
    requires { IsRoutesOf accepted.now.plant routes.now }
{
    let mut lines = Vec::new(alloc);
    for name in asked.texts {
        let said = judge_file(alloc, shelf, accepted, routes, asked, name.as_str())?;
        lines.extend_from_slice(said.as_bytes())?;
    }
    Ok(lines)
}

/// The lines of the text in a file.
fn judge_file<S: Shelf>(
    alloc: Global,
    shelf: &mut S,
    accepted: &Accepted,
    routes: &Routes,
    asked: Asked<'_>,
    name: &str,
) -> Result<String, Stop>
    requires { IsRoutesOf accepted.now.plant routes.now }
{
    let text = load_file(alloc, shelf, name, TEXT_FILE)?;
    Ok(judge_text(alloc, accepted, routes, asked, name, text.as_slice())?)
}

/// The lines of a text of this name.
fn judge_text(
    alloc: Global,
    accepted: &Accepted,
    routes: &Routes,
    asked: Asked<'_>,
    name: &str,
    text: &[u8],
) -> Result<String, NoMemory>
    requires routes { IsRoutesOf accepted.now.plant routes.now }
    requires short { length text.now < 2 ^ 32 - 1 }
{
    accepted.facts();
    match read_record(alloc, accepted.plant(), text) {
        Ok(log) => {
            let verdict = verdict_on(alloc, accepted, routes, asked, &log)?;
            let mut said = format!(in alloc; "{name} {verdict}\n")?;
            if is_short(text) {
                let cuts = refused_cuts(alloc, accepted.plant(), text)?;
                let line = format!(in alloc; "{name} cuts {cuts} refused\n")?;
                said.push_str(line.as_str())?;
            }
            Ok(said)
        }
        Err(RecordFault::NoMemory) => Err(NoMemory),
        Err(RecordFault::Line(line)) => Ok(format!(in alloc; "{name} line {line} at fault\n")?),
    }
}

/// Whether a record is legal, in words.
fn verdict_on(
    alloc: Global,
    accepted: &Accepted,
    routes: &Routes,
    asked: Asked<'_>,
    log: &Record,
) -> Result<&'static str, NoMemory>
    requires { IsRoutesOf accepted.now.plant routes.now }
{
    worlds_and_walks_are_one();
    let apps = kinds_of(alloc, accepted.plant())?;
    let world = seed_world(alloc, accepted, asked.cycles, asked.seed)?;
    if judge(alloc, accepted, routes, world, apps, log)? {
        Ok("legal")
    } else {
        Ok("not legal")
    }
}
