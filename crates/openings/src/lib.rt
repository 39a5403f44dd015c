//! Opening a list: every group that it reaches is read and checked, through a book or text by text.
#![tactic(auto)]

pub mod in_book;
pub mod known;
pub mod membership;
pub mod open;
pub mod opened;
pub mod opening;
mod reference;
pub mod supposed;
