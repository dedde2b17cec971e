// A disk in memory, and commands obeyed on it.
#![tactic(auto)]

pub mod answers;
pub mod listing;
pub mod session;
