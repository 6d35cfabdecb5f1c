// The two texts: how they are spelled, a line read or written, and why a text is refused. `reading` reads them, `writing` writes them.
#![tactic(auto)]

mod bytes;
pub mod limits;
pub mod number;
pub mod ranges;
pub mod read_net;
pub mod reader;
pub mod refusal;
pub mod scan;
pub mod write;
