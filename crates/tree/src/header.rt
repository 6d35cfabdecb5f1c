// What a net says before its sinks, but for the root's position, which stands with those of the other vertices.
use quantities::metal_pair::MetalPair;
use quantities::time::Time;

#[derive(Clone, Copy, Debug, PartialEq, Eq)]
pub struct Header {
    pub branch: Time,
    pub wire: MetalPair,
    pub need: Time,
}
