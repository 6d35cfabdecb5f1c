// The tree so far, the edges of it that a sink may split, by their lower ends, and what the sink adds there.
ghost use Rattle.std.specs.Prelude.{◌≡◌, ◌≤◌, ◌<◌, length};
ghost use Rattle.tree.specs.Inner.Arrays.{point_at};
ghost use Rattle.short_tree.specs.Inner.Arrays.{meeting_at, added_at, Reaches, Inside, Cheapest};

use quantities::length::Length;
use quantities::point::{Point, distance, median_point};
use tree::measure::point;

// The edge to `lower`, and the wire that some sink adds there. The lesser of two edges goes before the other: it adds less, or as much and its lower end is
// the lower.
#[derive(Clone, Copy, PartialEq, Eq, PartialOrd, Ord)]
pub struct Edge {
    pub added: Length,
    pub lower: usize,
}

// The tree so far: the vertices 0 to `last`, their parents and where they stand. The methods that each step of a scan calls are inlined, so that it is not
// copied for every edge.
#[derive(Clone, Copy)]
pub struct Grown<'a> {
    pub last: usize,
    pub parents: &'a [usize],
    pub xs: &'a [i64],
    pub ys: &'a [i64],
    pub ghost reaches: { Reaches last parents.now xs.now ys.now },
}

impl Grown<'_> {
    // Where vertex v stands.
    #[inline(always)]
    fn at(self, v: usize) -> Point
        requires { v ≤ self.last }
        ensures { result ≡ point_at self.entry.xs.now self.entry.ys.now v }
    {
        point(self.xs, self.ys, v)
    }

    // The point where sink s meets the edge to v.
    #[inline(always)]
    pub fn meeting(self, s: usize, v: usize) -> Point
        requires { (1 ≤ v) × (v ≤ self.last) × (s ≤ self.last) }
        ensures { result ≡ meeting_at self.entry.parents.now self.entry.xs.now self.entry.ys.now s v }
    {
        let p = self.parents[v];
        median_point(self.at(p), self.at(v), self.at(s))
    }

    // The edge to v, for sink s.
    #[inline(always)]
    pub fn edge_to(self, s: usize, v: usize) -> Edge
        requires { (1 ≤ v) × (v ≤ self.last) × (s ≤ self.last) }
        ensures lower { result.lower ≡ v }
        ensures added { result.added.0 ≡ added_at self.entry.parents.now self.entry.xs.now self.entry.ys.now s v }
    {
        let m = self.meeting(s, v);
        let added = distance(m, self.at(s));
        Edge { added, lower: v }
    }

    // The cheapest edge for sink s; the edge to `from` is one of them.
    pub fn cheapest_edge(self, kept: &[usize], s: usize, from: usize) -> Edge
        requires { (self.last < length kept.now) × Inside self.last kept.now from × (s ≤ self.last) }
        ensures { Cheapest (Inside self.entry.last kept.now) self.entry.parents.now self.entry.xs.now self.entry.ys.now s result.lower result.added.0 }
    {
        let mut best = self.edge_to(s, from);
        for v in 1..=self.last {
            if kept[v] == 0 {
                best = best.min(self.edge_to(s, v));
            }
        }
        best
    }
}
