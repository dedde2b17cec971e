// The command text: what its lines spell.
#![tactic(auto)]

pub mod bytes;
pub mod command;
pub mod escape;
mod line;
pub mod number;
pub mod script;
pub mod show;
pub mod verb;
pub mod words;
