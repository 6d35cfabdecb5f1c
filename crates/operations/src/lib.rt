// What every operation on a net and a listing shares: the answers, a listing accepted, a listing that goes out. What plan and judge answer is defined here, and the demands on them.
#![tactic(auto)]

pub mod accept;
pub mod answers;
pub mod emit;
pub mod planner;
