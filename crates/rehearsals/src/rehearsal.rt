//! A run over a script.
use super::answer::{PartCount, Started};
use books::table::TableBook;
use faults::fault::Fault;
use faults::lawful::LawfulText;
use lists::list::AccessList;
use matching::judgement::judge;
use matching::verdict::Verdict;
use names::name::Name;
use names::path::Path;
use names::rule::ExactBytes;
use openings::open::open;
use openings::opened::Opened;
use scripts::{Call, read_line};
use station::number::ProcessNumber;
use station::station::Station;
use std::fmt::Display;
use std::io;
use std::io::Write;
use std::num::NonZeroU32;

const LINE_END: u8 = b'\n';

// How many parts the name has.
fn part_count(name: &[u8]) -> Result<PartCount, Fault> {
    Ok(PartCount(Name::new(name)?.part_count()))
}

// Whether the list derives the name. The name's fault comes before those of the list and of opening it. Never inlined:
// else each line would pay for the room of what is judged.
#[inline(never)]
fn verdict(book: &TableBook<'_>, name: &[u8], list: &[u8]) -> Result<&'static str, Fault> {
    let name = Name::new(name)?;
    let list = AccessList::new(list)?;
    Ok(match judge(&list, &name, book, &ExactBytes)? {
        Verdict::Grant => "yes",
        Verdict::Deny => "no",
    })
}

fn process(number: NonZeroU32) -> ProcessNumber {
    ProcessNumber(number.get())
}

/// A run over a script: where the answers go, and the book and the station that the calls change.
#[derive(Drop)]
pub(crate) struct Rehearsal<'r, W: Write + Drop> {
    out: W,
    book: TableBook<'r>,
    station: Station<'r>,
}

impl<'r, W: Write + Drop> Rehearsal<'r, W> {
    /// A run with an empty book and a new station.
    pub(crate) fn new(out: W, book: TableBook<'r>, station: Station<'r>) -> Rehearsal<'r, W> {
        Rehearsal { out, book, station }
    }

    fn refuse(&mut self, fault: Fault) -> io::Result<()> {
        writeln!(self.out, "refused {fault}")
    }

    // Answers a call with what it gives, or with its fault.
    fn answer_with(&mut self, given: Result<impl Display + Drop, Fault>) -> io::Result<()> {
        match given {
            Ok(given) => writeln!(self.out, "{given}"),
            Err(fault) => self.refuse(fault),
        }
    }

    // Writes the names of the groups that the list reaches, in the order of opening.
    fn write_names(&mut self, opened: &Opened) -> io::Result<()> {
        write!(self.out, "open")?;
        for name in opened.names() {
            write!(self.out, " ")?;
            self.out.write_all(name.as_bytes())?;
        }
        writeln!(self.out)
    }

    // Group names are bytes, so they are written as they are. What is opened stands here, and this is never inlined: else
    // each line would pay for its room.
    #[inline(never)]
    fn answer_open(&mut self, list: &[u8]) -> io::Result<()> {
        let list = match AccessList::new(list) {
            Ok(list) => list,
            Err(fault) => return self.refuse(fault),
        };
        match open(&list, &self.book) {
            Ok(opened) => self.write_names(&opened),
            Err(fault) => self.refuse(fault),
        }
    }

    fn answer_call(&mut self, call: Call<'_>) -> io::Result<()> {
        match call {
            Call::Name(text) => self.answer_with(part_count(text)),
            Call::Path(text) => self.answer_with(Path::new(text).map(|_| "path")),
            Call::List(text) => self.answer_with(AccessList::new(text).map(|_| "list")),
            Call::Group(name, text) => {
                let added = self.book.add(name, text);
                self.answer_with(added.map(|_| "group"))
            }
            Call::Ungroup(name) => {
                let removed = self.book.remove(name);
                self.answer_with(removed.map(|_| "ungroup"))
            }
            Call::Open(list) => self.answer_open(list),
            Call::Match(name, list) => {
                let verdict = verdict(&self.book, name, list);
                self.answer_with(verdict)
            }
            Call::Start(program) => {
                let started = self.station.start(program);
                self.answer_with(started.map(|number| Started("start", number)))
            }
            Call::Spawn(parent, program) => {
                let started = self.station.spawn(process(parent), program);
                self.answer_with(started.map(|number| Started("spawn", number)))
            }
            Call::Role(parent, role, program) => {
                let started = self.station.spawn_in_role(process(parent), role, program);
                self.answer_with(started.map(|number| Started("role", number)))
            }
            Call::Own(parent, program) => {
                let started = self.station.spawn_itself(process(parent), program);
                self.answer_with(started.map(|number| Started("own", number)))
            }
            Call::End(number) => {
                let ended = self.station.end(process(number));
                self.answer_with(ended.map(|_| "end"))
            }
            Call::Post(path, own) => self.answer_post(path, own, None),
            Call::PostBoth(path, own, second) => self.answer_post(path, own, Some(second)),
            Call::Unpost(path) => {
                let unposted = self.station.unpost(path);
                self.answer_with(unposted.map(|_| "unpost"))
            }
            Call::Force(path) => self.answer_force(path),
        }
    }

    fn answer_post(&mut self, path: &[u8], own: &[u8], second: Option<&[u8]>) -> io::Result<()> {
        let posted = self.station.post(path, own, second);
        self.answer_with(posted.map(|_| "post"))
    }

    // A list is bytes, so it is written as they are.
    fn answer_force(&mut self, path: &[u8]) -> io::Result<()> {
        match self.station.list_in_force(path) {
            Ok(list) => {
                write!(self.out, "force ")?;
                self.out.write_all(list.as_bytes())?;
                writeln!(self.out)
            }
            Err(fault) => self.refuse(fault),
        }
    }

    fn answer(&mut self, line: &[u8]) -> io::Result<()> {
        match read_line(line) {
            Ok(None) => Ok(()),
            Ok(Some(call)) => self.answer_call(call),
            Err(error) => writeln!(self.out, "{error}"),
        }
    }

    /// Answers each line, and flushes the answers. The last line need not end in a line end.
    pub(crate) fn run(&mut self, script: &[u8]) -> io::Result<()> {
        for line in script.split(|b| *b == LINE_END) {
            self.answer(line)?;
        }
        self.out.flush()
    }
}
