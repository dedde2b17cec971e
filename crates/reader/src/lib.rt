// Files read, and entries returned as parts of the disk.
#![tactic(auto)]

pub mod read;
#[cfg(test)]
mod tests;
