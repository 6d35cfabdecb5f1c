// The worst slack and the wire of a tree, or so far.
use quantities::length::Length;
use quantities::time::Time;

#[derive(Clone, Copy, Debug, PartialEq, Eq)]
pub struct Measures {
    pub slack: Time,
    pub wire: Length,
}
