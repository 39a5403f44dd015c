//! Names, partial names and paths: what is lawful, what their parts are, and which fault any other text has.
#![tactic(auto)]

mod joint;
pub mod limit;
pub mod name;
pub mod part;
pub mod path;
pub mod rule;
pub mod word;
