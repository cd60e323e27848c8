// Plays the day files that its arguments name, and prints the name and the report of each.
#![tactic(auto)]

use replay::play::report_text;
use std::{env, fs, io};

fn main(rt: HostRuntime) -> io::Result<()> {
    play_all(&rt)
}

fn play(rt: &HostRuntime, name: &str) -> io::Result<()> {
    let bytes = fs::read(rt, name)?;
    let text = report_text(rt.alloc(), bytes.as_slice())?;
    println!(rt; "{name}")?;
    rt.write_all(text.as_slice())
}

fn play_all(rt: &HostRuntime) -> io::Result<()> {
    for name in env::args(rt)?.skip(1) {
        play(rt, name.as_str())?;
    }
    Ok(())
}
