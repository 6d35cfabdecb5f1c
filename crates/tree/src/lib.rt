// The tree: what is measured of one, and the steps that the plans share.
#![tactic(auto)]

pub mod children;
pub mod descend;
pub mod header;
pub mod limits;
pub mod measure;
pub mod measures;
pub mod order;
pub mod places;
pub mod settle;
pub mod split;
pub mod view;
