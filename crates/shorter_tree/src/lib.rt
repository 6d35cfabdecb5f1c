// A net and a tree in arrays without one of the sinks: 02, request 9.
#![tactic(auto)]

pub mod close_up;
pub mod numbers;
pub mod shorten;
