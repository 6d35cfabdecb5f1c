// The pins of a net, by number: the root is 0, and the sinks are 1 to n.
ghost use Rattle.std.specs.Prelude.{◌≡◌, ◌≤◌};
ghost use Rattle.quantities.specs.Distance.{distance};
ghost use Rattle.tree.specs.Inner.Arrays.{point_at};
ghost use Rattle.first_tree.specs.Inner.Places.{PlacesWithin};

use quantities::length::Length;
use quantities::point::distance;
use tree::measure::point;

// Where the root and the n sinks stand, each in range.
#[derive(Clone, Copy)]
pub struct Pins<'a> {
    pub n: usize,
    pub xs: &'a [i64],
    pub ys: &'a [i64],
    ghost within: { PlacesWithin n xs.now ys.now },
}

impl Pins<'_> {
    // How far pins u and v are from each other.
    pub fn far_apart(self, u: usize, v: usize) -> Length
        requires { (u ≤ self.n) × (v ≤ self.n) }
        ensures { result.0 ≡ distance (point_at self.entry.xs.now self.entry.ys.now u) (point_at self.entry.xs.now self.entry.ys.now v) }
    {
        distance(point(self.xs, self.ys, u), point(self.xs, self.ys, v))
    }
}
