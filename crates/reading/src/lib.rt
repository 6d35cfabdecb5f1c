// The two texts read into arrays, or found at fault.
#![tactic(auto)]

pub mod read_listing;
pub mod read_net;
