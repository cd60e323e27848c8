// Reads a day file from standard input, and prints its report line by line.
#![tactic(auto)]

use replay::play::write_report;
use std::io;
use std::io::{BufWriter, Read, writer};

// One byte more than a day file may have, so that a file that is too long is known as such.
const ENOUGH: u64 = 60_001;

fn main(rt: HostRuntime) -> io::Result<()> {
    play(&rt)
}

fn play(rt: &HostRuntime) -> io::Result<()> {
    let mut bytes = Vec::new(rt.alloc());
    rt.stdin().take(ENOUGH).read_to_end(&mut bytes)?;
    // A line has several parts, and leaves the buffer whole.
    let mut out = BufWriter::new(rt.alloc(), writer(rt))?;
    write_report(&mut out, bytes.as_slice())
}
