// The first plan of a net: text in, listing out. What it answers is defined in `operations`, with the demands on it.
#![tactic(auto)]

pub mod plan;
