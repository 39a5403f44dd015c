//! Judging texts against a name: between which places of the name a list derives what stands there.
#![tactic(auto)]

mod derive;
mod judge;
pub mod judgement;
mod places;
mod reading;
mod step;
pub mod verdict;

pub use derive::derives;
