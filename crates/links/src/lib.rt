//! Links between numbered groups: which group names which, and what leads where.
#![tactic(auto)]

mod closing;
mod links;
mod naming;

pub use links::{Links, MAX_GROUPS};
pub use naming::Full;
