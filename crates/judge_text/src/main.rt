//! Says whether the texts of runs' records are legal, for whoever tests runs.
//!
//! `judge_text PLANT CYCLES SEED TEXT..` reads a plant and its devices' files as `irt run` does, takes the world of the
//! seed with so many cycles, and prints a line for each text: `TEXT legal`, `TEXT not legal`, or `TEXT line N at fault`
//! where it is the text of no record. Behind one that is read stands `TEXT cuts M refused`: of its fronts of whole lines,
//! from none to all but one, so many are the text of no record. A text of more than 1000 lines is not cut.
//!
//! A word `--` begins the words of another call. The statuses are those of `irt`, but for words of another form: 2.
#![tactic(auto)]

mod cuts;
mod judging;
mod plan;
mod words;

use crate::judging::judge_texts;
use crate::words::asked_of;
use anyhow::Result;
use irt_base::numbers::Status;
use irt_io::folder::FolderShelf;
use irt_io::stdout::StdSink;
use irt_steps::finish::finish;
use std::env;
use std::process::ExitCode;

/// The status of words of another form.
const USAGE: u8 = 2;

fn main(rt: HostRuntime) -> Result<ExitCode> {
    let alloc = rt.alloc();
    let mut words = Vec::new(alloc);
    for word in env::args(&rt)?.skip(1) {
        words.push(word)?;
    }
    let mut shelf = FolderShelf::new(rt, alloc);
    let mut sink = StdSink::new(rt);
    for part in words
        .as_slice()
        .split(|word: &String| word.as_str() == "--")
    {
        let Some(asked) = asked_of(part) else {
            println!(rt; "usage: judge_text PLANT CYCLES SEED TEXT..")?;
            return Ok(ExitCode::from(USAGE));
        };
        let Status(status) = finish(&mut sink, judge_texts(alloc, &mut shelf, asked));
        if status != 0 {
            return Ok(ExitCode::from(status));
        }
    }
    Ok(ExitCode::from(0))
}
