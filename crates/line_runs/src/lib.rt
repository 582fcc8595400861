//! Runs command lines of a file as a person would type them, one after the other.
#![tactic(auto)]

use anyhow::Result;
use irt_io::shelf::Shelf;
use irt_io::sink::Sink;
use irt_steps::print::print_text;
use irt_wait::irt;
use std::alloc::{AllocError, Global};
use std::sync::Wait;
use std::thread::Threads;

/// The file of the lines, and the most bytes that it may have.
const LINES: &str = "lines.txt";

const LINES_FILE: usize = 65536;

/// Runs the lines of `lines.txt`, and prints each with what it prints and its status.
///
/// # Errors
/// The file can't be had or is no text, the sink failed, or memory ran out.
pub fn run_lines<R: Threads + Wait + Sync, S: Shelf, K: Sink>(
    rt: &R,
    alloc: Global,
    shelf: &mut S,
    sink: &mut K,
) -> Result<()> {
    let bytes = shelf.load(alloc, LINES, LINES_FILE)?;
    let text = str::from_utf8(bytes.as_slice())?;
    for line in text.lines() {
        let asked = format!(in alloc; "$ irt {line}\n")?;
        print_text(sink, asked.as_bytes())?;
        let words = words_of(alloc, line)?;
        let status = irt(rt, alloc, words.as_slice(), shelf, sink);
        let ended = format!(in alloc; "status {}\n", status.0)?;
        print_text(sink, ended.as_bytes())?;
    }
    Ok(())
}

/// The words of a line, parted by blanks.
fn words_of(alloc: Global, line: &str) -> Result<Vec<String>, AllocError> {
    let mut words = Vec::new(alloc);
    for word in line.split(' ') {
        words.push(String::from_str(alloc, word)?)?;
    }
    Ok(words)
}
