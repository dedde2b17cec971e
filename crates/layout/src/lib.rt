// The disk as the old machine reads it: its limits, entries, names and files. Nothing here judges a disk or changes one.
#![tactic(auto)]

pub mod disk;
pub mod entry;
pub mod name;
#[cfg(test)]
mod tests;
