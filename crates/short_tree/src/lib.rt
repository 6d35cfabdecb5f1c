// The short tree: the second plan (02, request 6; document 000, P2).
#![tactic(auto)]

pub mod choose;
pub mod edge;
pub mod grow;
pub mod make;
pub mod plan_short;
pub mod renew;
