// The router's score of a listing that judge accepts: 02, request 8. Floats are for it alone.
#![tactic(auto)]

pub mod limits;
pub mod score;
pub mod weights;
