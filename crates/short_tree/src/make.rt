// The short tree of a net, made and measured.
ghost use Rattle.std.specs.Prelude.{◌≡◌, ℕ, ◌≤◌};
ghost use Rattle.tree.specs.Measures.{worst_slack, wire_length};
ghost use Rattle.tree.specs.Inner.Arrays.{point_at, net_of, tree_of, HoldsNet};
ghost use Rattle.short_tree.specs.ShortTree.{short};
ghost use Rattle.short_tree.specs.Inner.Arrays.{PlanRoom};

use crate::grow::short;
use tree::descend::lowest_unreached;
use tree::header::Header;
use tree::measures::Measures;
use tree::view::TreeView;

// The short tree goes to `parents` and to the places of the branch points in `xs` and `ys`; its worst slack and its wire are returned.
// The root and the sinks stay where they stand. The other lent arrays are room to work in: `kept` for the first children after the tree is made.
pub fn make(
    h: Header,
    n: usize,
    xs: &mut [i64],
    ys: &mut [i64],
    required: &[i64],
    parents: &mut [usize],
    kept: &mut [usize],
    costs: &mut [u64],
    second: &mut [usize],
    queue: &mut [usize],
    slacks: &mut [i64],
) -> Measures
    requires holds_net { HoldsNet h n xs.old ys.old required.now }
    requires plan_room { PlanRoom n xs.old ys.old parents.old kept.old costs.old second.old queue.old slacks.old }
    ensures tree { tree_of n parents.new xs.new ys.new ≡ short (net_of h n xs.old ys.old required.now) }
    ensures kept { (v : ℕ) → v ≤ n → point_at xs.new ys.new v ≡ point_at xs.old ys.old v }
    ensures worst { result.slack.0 ≡ worst_slack (net_of h n xs.old ys.old required.now) (short (net_of h n xs.old ys.old required.now)) }
    ensures wire { result.wire.0 ≡ wire_length (net_of h n xs.old ys.old required.now) (short (net_of h n xs.old ys.old required.now)) }
{
    short(n, xs, ys, parents, kept, costs);
    lowest_unreached(n, parents, kept, second, queue);
    let tree = TreeView { n, parents, xs, ys };
    tree.measure_tree(h, required, queue, slacks)
}
