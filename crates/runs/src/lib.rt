//! Relations between places that only go forward: from where a run starts to where it can end.
#![tactic(auto)]

mod closure;
mod image;
mod relation;
mod row;
mod step;

pub use closure::ClosedRuns;
pub use relation::{Relation, Runs};
