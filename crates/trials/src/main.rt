// Begun: random requests with power failing at each of their writes, beside a map of files that knows nothing of blocks.
#![tactic(auto)]

mod change;
mod compare;
mod machine;
mod model;
mod random;
mod trial;

fn main() {}
