// The bottom layer: lengths, times and positions in exact whole numbers. No function but the product with a wire factor takes a length to a time.
#![tactic(auto)]

pub mod length;
pub mod metal_pair;
pub mod point;
pub mod time;
pub mod wire_factor;
