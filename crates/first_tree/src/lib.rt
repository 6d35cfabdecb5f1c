// The first plan's tree, on arrays: the sinks go in one after another, each at the edge that is best, and the branch points settle.
#![tactic(auto)]

pub mod choose;
pub mod gather;
pub mod insert;
pub mod pins;
pub mod plan;
pub mod scoring;
pub mod upward;
