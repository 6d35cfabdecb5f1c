// The worst slack and the wire of a tree.
ghost use Rattle.std.specs.Prelude.{◌≡◌, ℕ, ◌*◌, ◌-◌, ◌≤◌, ◌<◌, length, get_or, ltb, pos, ◌+ℤ◌, ◌-ℤ◌};
ghost use Rattle.quantities.specs.Inner.Linear.{up};
ghost use Rattle.quantities.specs.Ranges.{Within};
ghost use Rattle.quantities.specs.Inner.Reach.{length_reach};
ghost use Rattle.tree.specs.declared.header.Header.{Header};
ghost use Rattle.tree.specs.Measures.{one_if, worst_slack, wire_length};
ghost use Rattle.tree.specs.Limits.{branch_limit, required_limit};
ghost use Rattle.tree.specs.Inner.DerivedLimits.{cost_limit, spend_limit};
ghost use Rattle.tree.specs.Inner.Arrays.{point_at, net_of, HoldsNet, UnderRoot, RootDown};
ghost use Rattle.tree.specs.Inner.Measuring.{slack_at, CostsInRange, least_slack};
ghost use Rattle.tree.specs.Inner.Views.{viewed_tree, length_in, cost_in, spent_in, first_in, counted_in, wire_in};

use crate::header::Header;
use crate::measures::Measures;
use crate::view::TreeView;
use quantities::length::Length;
use quantities::point::{Point, distance};
use quantities::time::Time;

// Where vertex v stands.
pub fn point(xs: &[i64], ys: &[i64], v: usize) -> Point
    requires { (v < length xs.now) × (v < length ys.now) }
    ensures { result ≡ point_at xs.now ys.now v }
{
    Point { x: xs[v], y: ys[v] }
}

impl<'a> TreeView<'a> {
    // The length of the edge whose lower end is v.
    pub fn edge_length(self, v: usize) -> Length
        requires { UnderRoot self.n v }
        ensures { result.0 ≡ length_in self.entry v }
    {
        let p = self.parents[v];
        distance(point(self.xs, self.ys, p), point(self.xs, self.ys, v))
    }

    // The measures of vertex 1, a sink.
    fn first_vertex(self, slacks: &[i64]) -> Measures
        requires { self.n < length slacks.now }
        ensures { result ≡ first_in self.entry slacks.now }
    {
        Measures {
            slack: Time::of(slacks[1]),
            wire: self.edge_length(1),
        }
    }

    // The measures with vertex v counted in.
    fn with_vertex(self, so_far: Measures, slacks: &[i64], v: usize) -> Measures
        requires { (self.n < length slacks.now) × UnderRoot self.n v × (so_far.wire.0 ≤ length_reach) }
        ensures { result ≡ counted_in self.entry slacks.now v so_far }
    {
        let wire = so_far.wire + self.edge_length(v);
        if self.n < v {
            return Measures {
                slack: so_far.slack,
                wire,
            };
        }
        Measures {
            slack: so_far.slack.min(Time::of(slacks[v])),
            wire,
        }
    }

    // The measuring step: vertex v is counted into the measures that are lent.
    fn count_vertex(self, so_far: &mut Measures, slacks: &[i64], v: usize)
        requires { (self.n < length slacks.now) × UnderRoot self.n v × (so_far.old.wire.0 ≤ length_reach) }
        ensures { so_far.new ≡ counted_in self.entry slacks.now v so_far.old }
    {
        *so_far = self.with_vertex(*so_far, slacks, v);
    }

    // The worst slack and the wire of a tree whose sinks' slacks are known: the measures so far are lent from vertex to vertex.
    pub fn measure(self, slacks: &[i64]) -> Measures
        requires { self.n < length slacks.now }
        ensures worst { result.slack.0 ≡ least_slack self.entry.n slacks.now }
        ensures wire { result.wire.0 ≡ wire_in self.entry }
    {
        let mut so_far = self.first_vertex(slacks);
        for v in 2..2 * self.n {
            self.count_vertex(&mut so_far, slacks, v);
        }
        so_far
    }

    // What the edge whose lower end is v costs: its delay, and c if v is a branch point.
    pub fn cost_above(self, header: Header, v: usize) -> Time
        requires { CostsInRange header × UnderRoot self.n v }
        ensures cost { result.0 ≡ pos (cost_in header self.entry v) }
        ensures range { Within cost_limit result.0 }
    {
        let p = self.parents[v];
        let edge = header
            .wire
            .delay(point(self.xs, self.ys, p), point(self.xs, self.ys, v));
        edge + branch_cost(header, self.n, v)
    }

    // What is spent on the way to v: that of its parent, and the cost of the edge between them.
    fn spent_at(self, header: Header, spent: &[i64], v: usize) -> Time
        requires { CostsInRange header × (2 * self.n ≤ length spent.now) × UnderRoot self.n v × Within spend_limit (get_or spent.now (get_or self.parents.now v 0) (pos 0)) }
        ensures { result.0 ≡ get_or spent.now (get_or self.entry.parents.now v 0) (pos 0) +ℤ pos (cost_in header self.entry v) }
    {
        let cost = self.cost_above(header, v);
        let p = self.parents[v];
        Time::of(spent[p]) + cost
    }

    // What is spent on the way to each vertex, at the place of its number, in the order of `queue`: parents first.
    fn spend(self, header: Header, queue: &[usize], spent: &mut [i64])
        requires { CostsInRange header × RootDown self.n self.parents.now queue.now × (2 * self.n ≤ length spent.old) }
        ensures { (v : ℕ) → 1 ≤ v → v < 2 * self.entry.n → get_or spent.new v (pos 0) ≡ pos (spent_in header self.entry (2 * self.entry.n - 1) v) }
    {
        spent[0] = 0;
        for &v in &queue[..2 * self.n - 1] {
            spent[v] = self.spent_at(header, spent, v).attoseconds();
        }
    }

    // The worst slack and the wire of a tree whose vertices stand in `queue` from the root down. `slacks` is room for what is spent and for the slacks.
    pub fn measure_tree(
        self,
        header: Header,
        required: &[i64],
        queue: &[usize],
        slacks: &mut [i64],
    ) -> Measures
        requires { HoldsNet header self.n self.xs.now self.ys.now required.now × RootDown self.n self.parents.now queue.now × (2 * self.n ≤ length slacks.old) }
        ensures worst { result.slack.0 ≡ worst_slack (net_of header self.entry.n self.entry.xs.now self.entry.ys.now required.now) (viewed_tree self.entry) }
        ensures wire { result.wire.0 ≡ wire_length (net_of header self.entry.n self.entry.xs.now self.entry.ys.now required.now) (viewed_tree self.entry) }
    {
        self.spend(header, queue, slacks);
        sink_slacks(self.n, required, slacks);
        self.measure(slacks)
    }
}

// c for a branch point, nothing for a sink.
fn branch_cost(header: Header, n: usize, v: usize) -> Time
    requires { CostsInRange header }
    ensures cost { result.0 ≡ pos (up header.branch.0 * one_if (ltb n v)) }
    ensures range { Within branch_limit result.0 }
{
    if n < v { header.branch } else { Time::of(0) }
}

// The slack of each sink, in the place of what is spent on the way to it.
fn sink_slacks(n: usize, required: &[i64], slacks: &mut [i64])
    requires { (n < length required.now) × (n < length slacks.old) × ((s : ℕ) → 1 ≤ s → s ≤ n → Within required_limit (slack_at required.now s) × Within spend_limit (slack_at slacks.old s)) }
    ensures { (s : ℕ) → 1 ≤ s → s ≤ n → slack_at slacks.new s ≡ slack_at required.now s -ℤ slack_at slacks.old s }
{
    for s in 1..=n {
        slacks[s] = (Time::of(required[s]) - Time::of(slacks[s])).attoseconds();
    }
}
