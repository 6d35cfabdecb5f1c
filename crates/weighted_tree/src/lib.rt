// The tree by switching weights: the third plan (02, request 7).
#![tactic(auto)]

pub mod join;
pub mod make;
pub mod plan_weighted;
