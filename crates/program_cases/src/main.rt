//! Runs command lines over plants and device files that are good, bad and worse.
#![tactic(auto)]

use anyhow::Result;
use irt_io::folder::FolderShelf;
use irt_io::stdout::StdSink;
use line_runs::run_lines;

fn main(rt: HostRuntime) -> Result<()> {
    let alloc = rt.alloc();
    let mut shelf = FolderShelf::new(rt, alloc);
    let mut sink = StdSink::new(rt);
    run_lines(&rt, alloc, &mut shelf, &mut sink)
}
