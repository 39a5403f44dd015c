//! What has happened at a station, and what follows from it: names, numbers and lists in force.
#![tactic(auto)]

pub mod laws;
