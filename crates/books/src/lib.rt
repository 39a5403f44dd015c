//! Books of groups: what a book means, and the books there are.
#![tactic(auto)]

pub mod book;
pub mod divider;
pub mod group;
pub mod not_copied;
pub mod table;
