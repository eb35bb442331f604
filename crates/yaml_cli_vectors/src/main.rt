//! Replays vectors: reads JSON lines, makes the call that each names, and compares all that it answers. A line's `name` says
//! what it is a row of, and isn't looked at.
#![tactic(auto)]

mod call;
mod checks;
mod difference;
mod engine;
mod lines;
mod making;
mod program;
mod reading;
mod replay;
mod run;
mod tally;
mod writing;

use std::io;
use tally::Tally;

fn main(rt: HostRuntime) -> io::Result<()> {
    let lines = io::read_to_string(rt.alloc(), rt.reader())?;
    let mut tally = Tally::default();
    for line in lines.lines() {
        replay::replay(&rt, &mut tally, line);
    }
    println!(rt; "{} passed, {} failed", tally.passed, tally.failed)
}
