// What is kept for the sinks that wait after a sink s went in. The split edge is in two parts now, and no sink is nearer to a part than it was to the whole:
// only the new edge to s can go before what is kept.
ghost use Rattle.std.specs.Prelude.{◌≢◌, ℕ, ◌≤◌, ◌<◌, length, get_or};
ghost use Rattle.short_tree.specs.Inner.Arrays.{Waits, Inside, Others, Kept, AllKept, SameZeros, SameBut};

use crate::edge::{Edge, Grown};
use quantities::length::Length;

// The edge to s is kept for sink t, if t waits and the edge goes before what is kept. For a sink that is in, nothing is kept.
fn offer(tree: Grown, kept: &mut [usize], costs: &mut [u64], s: usize, t: usize)
    requires tree { (t ≤ tree.last) × Inside tree.last kept.old s }
    requires t_in_bounds { (t < length kept.old) × (t < length costs.old) }
    ensures kept { let g = tree.entry in get_or kept.old t 0 ≢ 0 → Kept (Others g.last s kept.old) g.parents.now g.xs.now g.ys.now kept.old costs.old t → Kept (Inside g.last kept.old) g.parents.now g.xs.now g.ys.now kept.new costs.new t }
    ensures others { SameBut t kept.old kept.new × SameBut t costs.old costs.new }
    ensures zeros { SameZeros kept.old kept.new }
{
    if kept[t] == 0 {
        return;
    }
    let old = Edge {
        added: Length::of(costs[t]),
        lower: kept[t],
    };
    let new = tree.edge_to(t, s);
    if new < old {
        kept[t] = s;
        costs[t] = new.added.nanometres();
    }
}

// All sinks that wait.
pub fn renew(tree: Grown, n: usize, kept: &mut [usize], costs: &mut [u64], s: usize)
    requires in_bounds { (n ≤ tree.last) × (n < length kept.old) × (n < length costs.old) × Inside tree.last kept.old s }
    requires by_index { (t : ℕ) → Waits n kept.old t → Kept (Others tree.last s kept.old) tree.parents.now tree.xs.now tree.ys.now kept.old costs.old t }
    ensures kept { let g = tree.entry in AllKept n g.last g.parents.now g.xs.now g.ys.now kept.new costs.new }
    ensures zeros { SameZeros kept.old kept.new }
{
    for t in 1..=n {
        offer(tree, kept, costs, s, t);
    }
}
