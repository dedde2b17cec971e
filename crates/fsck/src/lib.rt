// Sound disks, judged, and the blocks in use.
#![tactic(auto)]

pub mod block_set;
pub mod fault;
pub mod judge;
pub mod sound_disk;
#[cfg(test)]
mod tests;
pub mod usage;
