// Program `tally` once more, for the gate to run it on document 01's own example, hexadecimal 01 24.
#![tactic(auto)]

use std::io;
use std::io::Read;

// stays in both programs: the gate runs a program on one input, and a function of a library that reads input could promise nothing
fn main(rt: HostRuntime) -> io::Result<()> {
    let mut s = Vec::new(rt.alloc());
    rt.reader().take(65536).read_to_end(&mut s)?;
    let (_, written) = log_printer::tally(&rt, &s);
    written
}
