// The places of a disk that the old machine doesn't read.
#![tactic(auto)]

mod extent;
pub mod place;
pub mod runs;
#[cfg(test)]
mod tests;
