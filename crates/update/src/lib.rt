// Requests on a disk: what they write, what they answer, and when they are refused.
#![tactic(auto)]

pub mod admit;
pub mod answer;
pub mod away;
mod block_list;
mod choose;
mod padded;
pub mod plan;
pub mod put;
pub mod request;
#[cfg(test)]
mod tests;
pub mod write;
pub mod writes;
