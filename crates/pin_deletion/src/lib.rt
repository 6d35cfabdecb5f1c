// A pin is deleted and the tree is kept: 02, request 9.
#![tactic(auto)]

pub mod delete_pin;
pub mod emit_both;
