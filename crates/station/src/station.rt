//! The station, and the calls on it.
ghost use Rattle.std.specs.Prelude.{◌≡◌, [], length, MatchOption, MatchResult, IfOk, OnErr};
ghost use Rattle.std.specs.Option.{option_map, option_copied};
ghost use Rattle.faults.specs.declared.fault.Fault.{Fault};
ghost use Rattle.faults.specs.declared.kind.Kind.TheVariants.{NoSuchProcess};
ghost use Rattle.faults.specs.Answers.{Accepted};
ghost use Rattle.names.specs.Names.{LawfulPartial};
ghost use Rattle.names.specs.Faults.{fault, PartialFault};
ghost use Rattle.station.specs.Checks.{InText, SecondFault};
ghost use Rattle.registers.specs.Registers.{rows_in_use};
ghost use Rattle.texts.specs.Shown.{shown};
ghost use Rattle.histories.specs.Histories.{History, Start, Spawn, SpawnInRole, SpawnItself, End, Post, Unpost};
ghost use Rattle.histories.specs.Processes.{name_of};
ghost use Rattle.histories.specs.Places.{in_force, first_below, paths_above};

use super::made_name::MadeName;
use super::number::ProcessNumber;
use super::place::Place;
use super::process::Process;
use faults::fault::Fault;
use faults::kind::Kind;
use faults::lawful::LawfulText;
use lists::list::AccessList;
use names::name::{Name, PartialName};
use names::path::Path;
use registers::register::Register;

/// How many processes a station has at once.
pub const MAX_PROCESSES: usize = 64;

/// How many places a station has at once.
pub const MAX_PLACES: usize = 32;

/// The processes that run, the places with their lists, and how many process numbers were given.
#[derive(Drop)]
pub struct Station<'a> {
    pub(crate) processes: Register<'a, Process>,
    pub(crate) places: Register<'a, Place>,
    pub(crate) given: u32,
    ghost process_rows: { length processes.rows.now ≡ 64 },
    ghost place_rows: { length places.rows.now ≡ 32 },
}

// The role of a spawn: its faults have text 1.
fn role_of(text: &[u8]) -> Result<PartialName, Fault>
    ensures { MatchResult result (λ role. (shown role.text ≡ text.now) × Accepted (LawfulPartial text.now) (InText 1 (PartialFault text.now))) (InText 1 (PartialFault text.now)) }
{
    PartialName::new(text).map_err(|fault| fault.in_text(1))
}

// The second list of a post, where one is given: its faults have text 1.
fn second_list(text: Option<&[u8]>) -> Result<Option<AccessList>, Fault>
    ensures { MatchResult result (λ list. (option_map (λ l. shown l.text) list ≡ option_copied text.entry) × ((f : Fault) → SecondFault (option_copied text.entry) f → ⊥)) (SecondFault (option_copied text.entry)) }
{
    let Some(text) = text else { return Ok(None) };
    match AccessList::new(text) {
        Err(fault) => Err(fault.in_text(1)),
        Ok(list) => Ok(Some(list)),
    }
}

impl<'a> Station<'a> {
    ghost use Rattle.station.specs.Stations.{name_at, lists_at, StationAfter, told, Enters, SameStation, ProcessesKept, PlacesKept, SameRows};
    ghost use Rattle.station.specs.Answers.{EntryAnswer, StartAnswer, SpawnAnswer, SpawnInRoleAnswer, SpawnItselfAnswer, EndAnswer, PostAnswer, UnpostAnswer, ForceAnswer};

    /// A station with no process and no place, over the rows that it is lent.
    pub fn new(
        processes: &'a mut [Process; MAX_PROCESSES],
        places: &'a mut [Place; MAX_PLACES],
    ) -> Station<'a>
        ensures after { StationAfter [] result }
        ensures memory { (result.processes.rows.now ≡ processes.old) × (result.places.rows.now ≡ places.old) }
    {
        Station {
            processes: Register::new(processes),
            places: Register::new(places),
            given: 0,
        }
    }

    /// Starts a process by its program, and answers its number. Faults: those of the program; no row free.
    pub fn start(&mut self, program: &[u8]) -> Result<ProcessNumber, Fault>
        ensures answer { (past : History) → StationAfter past self.old → StartAnswer past program.now result }
        ensures after { (past : History) → StationAfter past self.old → StationAfter (told result (Start program.now) past) self.new }
        ensures memory { MatchResult result (λ _. ProcessesKept self.old self.new) (λ _. SameStation self.old self.new) }
        ensures same_rows { SameRows self.old self.new }
    {
        let program = PartialName::new(program)?;
        self.enter(program.as_bytes())
    }

    /// Starts a process named `parent+program`, and answers its number. Faults: no such parent; those of the program; of
    /// the name; no row free.
    pub fn spawn(&mut self, parent: ProcessNumber, program: &[u8]) -> Result<ProcessNumber, Fault>
        ensures answer { (past : History) → StationAfter past self.old → SpawnAnswer past parent.0 program.now result }
        ensures after { (past : History) → StationAfter past self.old → StationAfter (told result (Spawn parent.0 program.now) past) self.new }
        ensures memory { MatchResult result (λ _. ProcessesKept self.old self.new) (λ _. SameStation self.old self.new) }
        ensures same_rows { SameRows self.old self.new }
    {
        let parent = self.running(parent)?;
        let program = PartialName::new(program)?;
        let name = MadeName::spawned(parent, &program);
        self.enter(name.as_bytes())
    }

    /// Starts a process named `parent@role+program`, and answers its number. Faults: no such parent; those of the program;
    /// of the role, with text 1; of the name; no row free.
    pub fn spawn_in_role(
        &mut self,
        parent: ProcessNumber,
        role: &[u8],
        program: &[u8],
    ) -> Result<ProcessNumber, Fault>
        ensures answer { (past : History) → StationAfter past self.old → SpawnInRoleAnswer past parent.0 role.now program.now result }
        ensures after { (past : History) → StationAfter past self.old → StationAfter (told result (SpawnInRole parent.0 role.now program.now) past) self.new }
        ensures memory { MatchResult result (λ _. ProcessesKept self.old self.new) (λ _. SameStation self.old self.new) }
        ensures same_rows { SameRows self.old self.new }
    {
        let parent = self.running(parent)?;
        let program = PartialName::new(program)?;
        let role = role_of(role)?;
        let name = MadeName::spawned_in_role(parent, &role, &program);
        self.enter(name.as_bytes())
    }

    /// Starts a process named by its program, as a parent that runs asks for, and answers its number. Faults: no such
    /// parent; those of the program; no row free.
    pub fn spawn_itself(
        &mut self,
        parent: ProcessNumber,
        program: &[u8],
    ) -> Result<ProcessNumber, Fault>
        ensures answer { (past : History) → StationAfter past self.old → SpawnItselfAnswer past parent.0 program.now result }
        ensures after { (past : History) → StationAfter past self.old → StationAfter (told result (SpawnItself parent.0 program.now) past) self.new }
        ensures memory { MatchResult result (λ _. ProcessesKept self.old self.new) (λ _. SameStation self.old self.new) }
        ensures same_rows { SameRows self.old self.new }
    {
        let _parent = self.running(parent)?;
        let itself = PartialName::new(program)?;
        self.enter(itself.as_bytes())
    }

    /// Ends a process: its row is free again, and the names of its children stay. Faults: no such process.
    pub fn end(&mut self, process: ProcessNumber) -> Result<(), Fault>
        ensures answer { (past : History) → StationAfter past self.old → EndAnswer past process.0 result }
        ensures after { (past : History) → StationAfter past self.old → StationAfter (told result (End process.0) past) self.new }
        ensures memory { MatchResult result (λ _. ProcessesKept self.old self.new) (λ _. SameStation self.old self.new) }
        ensures same_rows { SameRows self.old self.new }
    {
        match self.processes.remove(&process) {
            None => Err(Fault::at(Kind::NoSuchProcess, 0)),
            Some(_) => Ok(()),
        }
    }

    /// Sets the own list of a path and, where one is given, the second for what lies below; an earlier post is replaced
    /// whole. Faults: those of the path; of the own list; of the second list, with text 1; no row free.
    pub fn post(&mut self, path: &[u8], own: &[u8], second: Option<&[u8]>) -> Result<(), Fault>
        ensures answer { (past : History) → StationAfter past self.old → PostAnswer past path.now own.now (option_copied second.entry) result }
        ensures after { (past : History) → StationAfter past self.old → StationAfter (told result (Post path.now own.now (option_copied second.entry)) past) self.new }
        ensures memory { MatchResult result (λ _. PlacesKept self.old self.new) (λ _. SameStation self.old self.new) }
        ensures same_rows { SameRows self.old self.new }
    {
        let path = Path::new(path)?;
        let own = AccessList::new(own)?;
        let second = second_list(second)?;
        match self.places.put(Place { path, own, second }) {
            Err(_) => Err(Fault::at(Kind::NoRowFree, 0)),
            Ok(()) => Ok(()),
        }
    }

    /// Takes the lists of a path away. Faults: those of the path; no list is posted there.
    pub fn unpost(&mut self, path: &[u8]) -> Result<(), Fault>
        ensures answer { (past : History) → StationAfter past self.old → UnpostAnswer past path.now result }
        ensures after { (past : History) → StationAfter past self.old → StationAfter (told result (Unpost path.now) past) self.new }
        ensures memory { MatchResult result (λ _. PlacesKept self.old self.new) (λ _. SameStation self.old self.new) }
        ensures same_rows { SameRows self.old self.new }
    {
        let path = Path::new(path)?;
        match self.places.remove(path.as_text()) {
            None => Err(Fault::at(Kind::NoListInForce, 0)),
            Some(_) => Ok(()),
        }
    }

    /// The list that is in force for a path. Faults: those of the path; no list is in force.
    pub fn list_in_force(&self, path: &[u8]) -> Result<&AccessList, Fault>
        ensures { (past : History) → StationAfter past self.now → ForceAnswer past path.now result }
    {
        let path = Path::new(path)?;
        match self.in_force(&path) {
            None => Err(Fault::at(Kind::NoListInForce, 0)),
            Some(list) => Ok(list),
        }
    }

    /// The name of a process, or none where no process has the number.
    pub fn name(&self, process: ProcessNumber) -> Option<&Name>
        ensures { (past : History) → StationAfter past self.now → MatchOption result (name_of past process.0 ≡ None) (λ name. name_of past process.0 ≡ Some (shown name.now.text)) }
    {
        let row = self.processes.find(&process)?;
        Some(&row.name)
    }

    // The name of a process that runs.
    fn running(&self, process: ProcessNumber) -> Result<&Name, Fault>
        ensures { MatchResult result (λ name. name_at (rows_in_use self.now.processes) process.0 ≡ Some (shown name.now.text)) (λ f. (f ≡ fault NoSuchProcess 0) × (name_at (rows_in_use self.now.processes) process.0 ≡ None)) }
    {
        match self.processes.find(&process) {
            None => Err(Fault::at(Kind::NoSuchProcess, 0)),
            Some(row) => Ok(&row.name),
        }
    }

    // Enters a process of this name under the next number.
    fn enter(&mut self, name: &[u8]) -> Result<ProcessNumber, Fault>
        ensures answer { (past : History) → StationAfter past self.old → EntryAnswer past name.now result }
        ensures entered { IfOk result (λ _. Enters name.now self.old self.new) }
        ensures same { OnErr result (SameStation self.old self.new) }
        ensures same_rows { SameRows self.old self.new }
    {
        let name = Name::new(name)?;
        if self.given == u32::MAX {
            return Err(Fault::at(Kind::NoRowFree, 0));
        }
        let number = ProcessNumber(self.given + 1);
        match self.processes.put(Process { number, name }) {
            Err(_) => Err(Fault::at(Kind::NoRowFree, 0)),
            Ok(()) => {
                self.given = number.0;
                Ok(number)
            }
        }
    }

    // The list that is in force for a path.
    fn in_force(&self, path: &Path) -> Option<&AccessList>
        ensures { MatchOption result (in_force (lists_at (rows_in_use self.now.places)) (shown path.now.text) ≡ None) (λ list. in_force (lists_at (rows_in_use self.now.places)) (shown path.now.text) ≡ Some (shown list.now.text)) }
    {
        match self.places.find(path.as_text()) {
            None => self.from_above(path),
            Some(place) => Some(&place.own),
        }
    }

    // The list that the longest posted path above a path has for what lies below.
    fn from_above(&self, path: &Path) -> Option<&AccessList>
        ensures { MatchOption result (first_below (lists_at (rows_in_use self.now.places)) (paths_above (shown path.now.text)) ≡ None) (λ list. first_below (lists_at (rows_in_use self.now.places)) (paths_above (shown path.now.text)) ≡ Some (shown list.now.text)) }
    {
        let up = path.parent()?;
        match self.places.find(up.as_text()) {
            None => self.from_above(&up),
            Some(place) => Some(place.list_below()),
        }
    }
}

#[cfg(test)]
mod tests {
    use super::*;

    // Whether no row is free for a process of this name, or no number is left.
    fn no_row(answer: Result<ProcessNumber, Fault>) -> bool {
        answer == Err(Fault::at(Kind::NoRowFree, 0))
    }

    #[test]
    fn last_number(rt: HostRuntime) {
        let mut processes = [Process::spare(); MAX_PROCESSES];
        let mut places = [Place::spare(); MAX_PLACES];
        let mut station = Station {
            processes: Register::new(&mut processes),
            places: Register::new(&mut places),
            given: u32::MAX - 1,
        };
        let last = ProcessNumber(u32::MAX);
        assert!(rt; station.start(b"panel") == Ok(last));
        assert!(rt; no_row(station.start(b"panel")));
        assert!(rt; no_row(station.spawn(last, b"gate")));
        assert!(rt; no_row(station.spawn_in_role(last, b"keeper", b"gate")));
        assert!(rt; no_row(station.spawn_itself(last, b"gate")));
        assert!(rt; station.start(b"") == Err(Fault::at(Kind::WordMissing, 0)));
        assert!(rt; station.end(last).is_ok());
        assert!(rt; no_row(station.start(b"panel")));
        assert!(rt; station.name(last).is_none());
    }
}
