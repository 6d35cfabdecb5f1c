// A pair of metals, with a wire factor for each direction: 02, request 4, "the trade now gives two factors", h and v.
ghost use Rattle.std.specs.Prelude.{◌≡◌, pos};
ghost use Rattle.quantities.specs.Delay.{delay};
ghost use Rattle.quantities.specs.Ranges.{FactorsWithin, PointWithin};
ghost use Rattle.quantities.specs.Inner.Reach.{factor_reach, coordinate_reach};

use crate::point::{Point, span};
use crate::time::Time;
use crate::wire_factor::WireFactor;

#[derive(Clone, Copy, Debug, PartialEq, Eq)]
pub struct MetalPair {
    pub horizontal: WireFactor,
    pub vertical: WireFactor,
}

impl MetalPair {
    // The delay of a straight wire from p to q.
    pub fn delay(self, p: Point, q: Point) -> Time
        requires { FactorsWithin factor_reach self × PointWithin coordinate_reach p × PointWithin coordinate_reach q }
        ensures { result.0 ≡ pos (delay self p q) }
    {
        let across = self.horizontal.delay(span(p.x, q.x));
        let upward = self.vertical.delay(span(p.y, q.y));
        across + upward
    }
}
