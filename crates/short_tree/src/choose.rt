// Which sink goes first, and which goes in next. The edge kept for a sink may have become dearer since; only a sink that could go in next looks for its
// cheapest edge anew.
// `kept` has the lower end of that edge, and 0 for a vertex that does not wait: numbers and no options, since it is one array of places in fixed memory, which
// is emptied by a fill and holds first children once the tree is made. For the same reason `kept` and `costs` stay two arrays that are lent side by side.
ghost use Rattle.std.specs.Prelude.{◌≡◌, ℕ, suc, ◌+◌, ◌≤◌, ◌<◌, cond, ltb, length, get_or, IfSome};
ghost use Rattle.quantities.specs.Distance.{distance};
ghost use Rattle.tree.specs.Inner.Arrays.{point_at, Points};
ghost use Rattle.short_tree.specs.Inner.Searching.{First};
ghost use Rattle.short_tree.specs.Inner.Arrays.{Waits, Inside, Cheapest, Kept, AllKept, SameZeros, SameBut, Looked, behind, Chosen};

use crate::edge::Grown;
use quantities::length::Length;
use quantities::point::distance;
use tree::measure::point;

// The sink of the two that is nearer to the root; the first on a tie.
fn nearer(xs: &[i64], ys: &[i64], best: usize, s: usize) -> usize
    requires { (n : ℕ) × (Points (suc n) xs.now ys.now × (best ≤ n) × (s ≤ n)) }
    ensures { result ≡ cond (ltb (distance (point_at xs.now ys.now 0) (point_at xs.now ys.now s)) (distance (point_at xs.now ys.now 0) (point_at xs.now ys.now best))) s best }
{
    let root = point(xs, ys, 0);
    let old = distance(root, point(xs, ys, best));
    let new = distance(root, point(xs, ys, s));
    if new < old { s } else { best }
}

// The sink nearest to the root, the lowest number on a tie.
pub fn nearest_sink(n: usize, xs: &[i64], ys: &[i64]) -> usize
    requires { (1 ≤ n) × Points (suc n) xs.now ys.now }
    ensures { First (λ u. distance (point_at xs.now ys.now 0) (point_at xs.now ys.now u)) (λ u. (1 ≤ u) × (u ≤ n)) result }
{
    let mut best = 1;
    for s in 2..=n {
        best = nearer(xs, ys, best, s);
    }
    best
}

// Whether sink s goes behind the best so far, which has the lower number.
fn is_behind(best: Option<usize>, costs: &[u64], s: usize) -> bool
    requires { IfSome best (λ b. b < length costs.now) × (s < length costs.now) }
    ensures { result ≡ behind costs.now s best }
{
    match best {
        Some(b) => costs[b] <= costs[s],
        None => false,
    }
}

// Sees to it that the edge kept for sink s is its cheapest: it is, unless s adds more there by now than was kept.
fn find_edge(tree: Grown, kept: &mut [usize], costs: &mut [u64], s: usize)
    requires in_bounds { (tree.last < length kept.old) × (s ≤ tree.last) × (s < length costs.old) }
    requires kept { Kept (Inside tree.last kept.old) tree.parents.now tree.xs.now tree.ys.now kept.old costs.old s }
    ensures found { let t = tree.entry in Cheapest (Inside t.last kept.old) t.parents.now t.xs.now t.ys.now s (get_or kept.new s 0) (get_or costs.new s 0) }
    ensures others { SameBut s kept.old kept.new × SameBut s costs.old costs.new }
{
    let v = kept[s];
    if Length::of(costs[s]) < tree.edge_to(s, v).added {
        let found = tree.cheapest_edge(kept, s, v);
        kept[s] = found.lower;
        costs[s] = found.added.nanometres();
    }
}

// The better of the best sink so far and sink s, which has a higher number.
fn better_sink(
    tree: Grown,
    n: usize,
    kept: &mut [usize],
    costs: &mut [u64],
    best: Option<usize>,
    s: usize,
) -> Option<usize>
    requires in_bounds { (tree.last < length kept.old) × (n ≤ tree.last) × (n < length costs.old) × (1 ≤ s) × (s ≤ n) }
    requires all_kept { AllKept n tree.last tree.parents.now tree.xs.now tree.ys.now kept.old costs.old }
    requires looked { Looked tree.parents.now tree.xs.now tree.ys.now kept.old costs.old s best }
    ensures kept { let t = tree.entry in AllKept n t.last t.parents.now t.xs.now t.ys.now kept.new costs.new }
    ensures looked { let t = tree.entry in Looked t.parents.now t.xs.now t.ys.now kept.new costs.new (s + 1) result }
    ensures zeros { SameZeros kept.old kept.new }
{
    if kept[s] == 0 || is_behind(best, costs, s) {
        return best;
    }
    find_edge(tree, kept, costs, s);
    if is_behind(best, costs, s) {
        best
    } else {
        Some(s)
    }
}

// Of the sinks that wait, the one that goes in next: the lowest of those that add least. The edge kept for it is its cheapest.
pub fn next_sink(tree: Grown, n: usize, kept: &mut [usize], costs: &mut [u64]) -> usize
    requires in_bounds { (tree.last < length kept.old) × (n ≤ tree.last) × (n < length costs.old) × ((s : ℕ) × Waits n kept.old s) }
    requires all_kept { AllKept n tree.last tree.parents.now tree.xs.now tree.ys.now kept.old costs.old }
    ensures kept { let t = tree.entry in AllKept n t.last t.parents.now t.xs.now t.ys.now kept.new costs.new }
    ensures chosen { let t = tree.entry in Chosen n t.parents.now t.xs.now t.ys.now kept.new costs.new result }
    ensures zeros { SameZeros kept.old kept.new }
{
    let mut best = None;
    for s in 1..=n {
        best = better_sink(tree, n, kept, costs, best, s);
    }
    // One waits, so there is a best.
    best.unwrap_or(0)
}
