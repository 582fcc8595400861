//! Does one thing of the parts so often, for whoever times it.
//!
//! `part_bench one|two WORDS ROUNDS` publishes and takes over a shared exchange, on one thread or on two, and
//! `part_bench routes FILE ROUNDS` makes the routes of a plant file. Each prints `done ROUNDS`. A word `--` begins the
//! words of another call.
#![tactic(auto)]

mod command;
mod often;
mod rounds;

use crate::command::{Command, command_of};
use crate::often::routed;
use crate::rounds::{on_one_thread, on_two_threads};
use anyhow::Result;
use irt_base::limits::PLANT_FILE;
use irt_io::folder::FolderShelf;
use irt_io::shelf::Shelf;
use irt_topo::read::read_plant;
use std::alloc::Global;
use std::process::ExitCode;
use std::{env, io};

fn main(rt: HostRuntime) -> Result<ExitCode> {
    let alloc = rt.alloc();
    let words = words_of(&rt, alloc)?;
    for part in words
        .as_slice()
        .split(|word: &String| word.as_str() == "--")
    {
        let Some(command) = command_of(part) else {
            println!(rt; "usage")?;
            return Ok(ExitCode::from(1));
        };
        let done = match command {
            Command::OneThread(asked) => on_one_thread(alloc, asked)?.published,
            Command::TwoThreads(asked) => on_two_threads(&rt, alloc, asked)?.published,
            Command::Routes { plant, rounds } => {
                let mut shelf = FolderShelf::new(rt, alloc);
                u64::from(routes_of(alloc, &mut shelf, plant, rounds)?)
            }
        };
        println!(rt; "done {done}")?;
    }
    Ok(ExitCode::from(0))
}

/// The words after the program's name.
fn words_of(rt: &HostRuntime, alloc: Global) -> io::Result<Vec<String>> {
    let mut words = Vec::new(alloc);
    for word in env::args(rt)?.skip(1) {
        words.push(word)?;
    }
    Ok(words)
}

/// Makes the routes of a plant file so often.
fn routes_of<S: Shelf>(alloc: Global, shelf: &mut S, name: &str, rounds: u32) -> Result<u32> {
    let bytes = shelf.load(alloc, name, PLANT_FILE)?;
    let plant = read_plant(alloc, bytes.as_slice())?;
    Ok(routed(alloc, &plant, rounds)?)
}
