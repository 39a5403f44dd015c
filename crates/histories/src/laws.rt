//! Laws of all histories, each carried by the contract of a function that does nothing.
ghost use Rattle.histories.specs.Laws.{NumbersGivenOnce, NumbersOfProcesses, NamesStay, EndsStay, OneNearest, NearestDecides, NothingPosted, ByWholeWords};

/// A number is never given twice, and processes have numbers that were given.
pub fn numbers_are_given_once()
    ensures once { NumbersGivenOnce }
    ensures given { NumbersOfProcesses }
{}

/// The name of a process stays while it runs, whatever else happens, and one that has ended runs never again.
pub fn names_stay()
    ensures names { NamesStay }
    ensures ends { EndsStay }
{}

/// The longest posted path that is a path or lies above it by whole words decides, and there is one at most.
pub fn nearest_decides()
    ensures decides { NearestDecides }
    ensures none { NothingPosted }
    ensures one { OneNearest }
    ensures words { ByWholeWords }
{}
