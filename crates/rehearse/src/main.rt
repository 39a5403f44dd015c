//! Rehearses the script on standard input: each call gives one line on standard output.
#![tactic(auto)]

use rehearsals::rehearse;
use std::io;
use std::io::{BufWriter, Read};

fn main(rt: HostRuntime) -> io::Result<()> {
    let mut script = Vec::new(rt.alloc());
    rt.stdin().read_to_end(&mut script)?;
    rehearse(script.as_slice(), BufWriter::new(rt.alloc(), rt.stdout())?)
}
