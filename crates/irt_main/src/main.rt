//! The program `irt`: plans, checks and simulates plants with PROFINET isochronous real time.
#![tactic(auto)]

use irt_io::folder::FolderShelf;
use irt_io::stdout::StdSink;
use irt_steps::finish::NO_MEMORY;
use irt_wait::irt;
use std::alloc::Global;
use std::io::ErrorKind;
use std::process::ExitCode;
use std::{env, io};

/// The status where the system gives no words.
const NO_WORDS: u8 = 64;

fn main(rt: HostRuntime) -> ExitCode {
    let alloc = rt.alloc();
    let words = match words_of(&rt, alloc) {
        Ok(words) => words,
        Err(error) if error.kind() == ErrorKind::OutOfMemory => return ExitCode::from(NO_MEMORY),
        Err(_) => return ExitCode::from(NO_WORDS),
    };
    let mut shelf = FolderShelf::new(rt, alloc);
    let mut sink = StdSink::new(rt);
    let status = irt(&rt, alloc, words.as_slice(), &mut shelf, &mut sink);
    ExitCode::from(status.0)
}

/// The words after the program's name.
fn words_of(rt: &HostRuntime, alloc: Global) -> io::Result<Vec<String>> {
    let mut words = Vec::new(alloc);
    for word in env::args(rt)?.skip(1) {
        words.push(word)?;
    }
    Ok(words)
}
