// Positions, their distance, and the median of three.
ghost use Rattle.std.specs.Prelude.{◌≡◌};
ghost use Rattle.quantities.specs.Ranges.{Within, PointWithin};
ghost use Rattle.quantities.specs.Inner.Reach.{coordinate_reach};
ghost use Rattle.quantities.specs.Distance.{span, distance};
ghost use Rattle.quantities.specs.Median.{median, median_point};

use crate::length::Length;

// A position in nanometres. Its coordinates are no lengths: they may be negative.
#[derive(Clone, Copy, Debug, PartialEq, Eq)]
pub struct Point {
    pub x: i64,
    pub y: i64,
}

// How far two coordinates lie apart.
pub fn span(a: i64, b: i64) -> Length
    requires { Within coordinate_reach a × Within coordinate_reach b }
    ensures { result.0 ≡ span a b }
{
    Length::of(a.abs_diff(b))
}

pub fn distance(p: Point, q: Point) -> Length
    requires { PointWithin coordinate_reach p × PointWithin coordinate_reach q }
    ensures { result.0 ≡ distance p q }
{
    span(p.x, q.x) + span(p.y, q.y)
}

// The middle one of three coordinates.
pub fn median(a: i64, b: i64, c: i64) -> i64
    ensures { result ≡ median a b c }
{
    a.min(b).max(a.max(b).min(c))
}

// The coordinate-wise median of three positions.
pub fn median_point(p: Point, q: Point, r: Point) -> Point
    ensures { result ≡ median_point p q r }
{
    Point {
        x: median(p.x, q.x, r.x),
        y: median(p.y, q.y, r.y),
    }
}
