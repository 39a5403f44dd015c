//! Scripts: one call a line, its fields apart by a tab.
#![tactic(auto)]

mod call;
mod line;
mod not_understood;
mod number;

pub use call::Call;
pub use line::{cut_at, read_line};
pub use not_understood::NotUnderstood;
