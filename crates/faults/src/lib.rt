//! Why a call was refused. A fault is four numbers: its number and layer, which its kind gives,
//! the text that it was found in, and the place there.
#![tactic(auto)]

pub mod fault;
pub mod kind;
pub mod lawful;
