// The answers of the plans and of judge, where nothing is refused.
use quantities::length::Length;
use quantities::time::Time;

// A listing that was written: its slack and wire, and how many bytes it has.
#[derive(Clone, Copy, Debug, PartialEq, Eq)]
pub struct Planned {
    pub slack: Time,
    pub wire: Length,
    pub bytes: usize,
}

// The measures of an accepted listing, and the net's Kraft maximum.
#[derive(Clone, Copy, Debug, PartialEq, Eq)]
pub struct Judged {
    pub slack: Time,
    pub wire: Length,
    pub best: Time,
}
