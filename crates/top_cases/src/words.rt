//! Words of `free`, which are no command where nobody may wait.

use irt_io::mem_shelf::MemShelf;
use irt_io::mem_sink::MemSink;
use irt_top::top::irt_calm;
use std::alloc::{AllocError, Global};
use std::test::Fail;

/// The words of one text, parted by blanks.
pub fn words(alloc: Global, text: &str) -> Result<Vec<String>, AllocError> {
    let mut words = Vec::new(alloc);
    for word in text.split(' ') {
        words.push(String::from_str(alloc, word)?)?;
    }
    Ok(words)
}

#[test]
fn free_waits(rt: HostRuntime) -> Result<(), Fail> {
    let alloc = rt.alloc();
    let asked = words(alloc, "free p 1 0")?;
    let mut shelf = MemShelf::new(alloc, &[])?;
    let mut sink = MemSink::new(alloc, 64, &[])?;
    let status = irt_calm(&rt, alloc, asked.as_slice(), &mut shelf, &mut sink);
    assert_eq!(rt; status.0, 1);
    assert_eq!(rt; sink.bytes(), b"usage\n".as_slice());
    Ok(())
}
