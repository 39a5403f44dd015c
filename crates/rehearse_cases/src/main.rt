//! Rehearses each of the worked scripts that lie beside it, each on a book and a station of its own: its name, and
//! then its answers.
#![tactic(auto)]

use rehearsals::rehearse;
use std::io::BufWriter;
use std::{fs, io};

// Rehearses the script of that name.
fn rehearse_one(rt: &HostRuntime, name: &str) -> io::Result<()> {
    println!(rt; "# {name}")?;
    let script = fs::read(rt, name)?;
    rehearse(script.as_slice(), BufWriter::new(rt.alloc(), rt.stdout())?)
}

fn main(rt: HostRuntime) -> io::Result<()> {
    let names = fs::read_to_string(&rt, "scripts")?;
    for name in names.lines() {
        rehearse_one(&rt, name)?;
    }
    Ok(())
}
