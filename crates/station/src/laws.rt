//! Laws of all answers of a station, each carried by the contract of a function that does nothing.
ghost use Rattle.std.specs.Prelude.{ℕ, List};
ghost use Rattle.faults.specs.declared.fault.Fault.{Fault};
ghost use Rattle.histories.specs.Histories.{History};
ghost use Rattle.station.specs.Laws.{Determined, MadeNames, NumbersEntered, RowsCounted};
ghost use Rattle.station.specs.Stations.{StationAfter};
ghost use Rattle.station.specs.declared.station.Station.{Station};
ghost use Rattle.station.specs.declared.number.ProcessNumber.{ProcessNumber};

/// What has happened determines what each call answers.
pub fn answers_are_determined()
    ensures { (past : History) → Determined past }
{}

/// A name that a spawn makes is refused for its length alone, and a program's own name is not refused.
pub fn made_names_are_names()
    ensures { (parent role program : List ℕ) (f : Fault) → MadeNames parent role program f }
{}

/// A number that a start or a spawn answers is the next one, and the process that was asked for has it.
pub fn numbers_are_entered()
    ensures { (past : History) (n : ProcessNumber) → NumbersEntered past n }
{}

/// After a history that a station can have, as many rows are taken as processes run, and as paths are posted.
pub fn rows_are_counted()
    ensures { (past : History) (s : Station) → StationAfter past s → RowsCounted past }
{}
