// The judgement of a listing over its net, and the Kraft maximum that it tells. What it answers is defined in `operations`, with the demands on it.
#![tactic(auto)]

pub mod judge;
pub mod kraft;
