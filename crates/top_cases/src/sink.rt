//! A text that breaks off, where the sink fails.

use crate::words::words;
use irt_io::mem_shelf::MemShelf;
use irt_io::mem_sink::MemSink;
use irt_top::top::irt_calm;
use std::test::Fail;

#[test]
fn faults_of_the_sink(rt: HostRuntime) -> Result<(), Fail> {
    let alloc = rt.alloc();
    let asked = words(alloc, "show a")?;
    for call in 0..9u32 {
        let mut shelf = MemShelf::new(alloc, &[])?;
        let mut sink = MemSink::new(alloc, 1, &[call])?;
        let status = irt_calm(&rt, alloc, asked.as_slice(), &mut shelf, &mut sink);
        assert_eq!(rt; status.0, 12);
        assert_eq!(rt; sink.bytes().len(), call as usize);
    }
    Ok(())
}
