//! Access lists: their tokens, and the check that a text is a lawful list.
#![tactic(auto)]

mod check;
mod class;
pub mod group_name;
pub mod list;
pub mod reader;
pub mod token;
pub mod walk;

/// How deep the brackets of a list may be.
pub const MAX_DEPTH: usize = 16;
