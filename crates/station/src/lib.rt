//! The station: processes that say who started them and for whom, and places with the lists in force.
#![tactic(auto)]

mod decision;
pub mod laws;
pub mod leave;
mod made_name;
pub mod number;
pub mod open_volume;
mod piece;
pub mod place;
pub mod process;
pub mod station;
