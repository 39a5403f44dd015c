//! Rehearsals: the calls of a script are made one after another, and each answer is a line.
#![tactic(auto)]

mod answer;
mod rehearsal;

use books::group::Group;
use books::table::{TABLE_ROWS, TableBook};
use rehearsal::Rehearsal;
use station::place::Place;
use station::process::Process;
use station::station::{MAX_PLACES, MAX_PROCESSES, Station};
use std::io;
use std::io::Write;

/// Makes the calls of a script on an empty book and a new station, and writes their answers. Fails where writing does.
pub fn rehearse<W: Write + Drop>(script: &[u8], out: W) -> io::Result<()> {
    let mut groups = [Group::spare(); TABLE_ROWS];
    let mut processes = [Process::spare(); MAX_PROCESSES];
    let mut places = [Place::spare(); MAX_PLACES];
    let book = TableBook::new(&mut groups);
    let station = Station::new(&mut processes, &mut places);
    Rehearsal::new(out, book, station).run(script)
}
