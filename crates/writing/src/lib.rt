// A net and a tree's listing written, and their lengths, which are known before a byte is.
#![tactic(auto)]

mod line_length;
mod listing_length;
pub mod listing_view;
mod net_length;
pub mod net_view;
mod write_listing;
mod write_net;
