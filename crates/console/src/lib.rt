// What the programs share: a text read to its end, the answer in bytes, a refusal in words, one write.
#![tactic(auto)]

pub mod answer;
mod complain;
mod lines;
pub mod program;
pub mod stream;
mod words;
