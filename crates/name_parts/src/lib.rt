//! The parts of a name by place, and the runs of parts that are partial names.
#![tactic(auto)]

mod dotted;
mod mark;
mod name_parts;
mod outline;

pub use mark::Mark;
pub use name_parts::NameParts;
