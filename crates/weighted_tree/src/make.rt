// The tree by switching weights, made and measured.
ghost use Rattle.std.specs.Prelude.{◌≡◌, ℕ, suc, ◌*◌, ◌-◌, ◌≤◌, ◌<◌, length, get_or};
ghost use Rattle.tree.specs.Limits.{sink_limit};
ghost use Rattle.tree.specs.Measures.{worst_slack, wire_length};
ghost use Rattle.tree.specs.Inner.Arrays.{point_at, net_of, weights_of, tree_of, HoldsNet, HoldsWeights};
ghost use Rattle.weighted_tree.specs.Joining.{weighted_tree};
ghost use Rattle.weighted_tree.specs.Inner.Arrays.{PlanRoom};

use crate::join::join_all;
use tree::header::Header;
use tree::measures::Measures;
use tree::order::order_by;
use tree::settle::settle;
use tree::view::TreeView;

// The vertices 1 to 2n-1 by number: from the leaves up, since a parent's number is higher.
fn number_up(n: usize, order: &mut [usize])
    requires { (1 ≤ n) × (n ≤ sink_limit) × (2 * n ≤ length order.old) }
    ensures { (i : ℕ) → i < 2 * n - 1 → get_or order.new i 0 ≡ suc i }
{
    for (i, place) in order[..2 * n - 1].iter_mut().enumerate() {
        *place = i + 1;
    }
}

// The tree goes to `parents` and to the places of the branch points in `xs` and `ys`; its worst slack and its wire are returned. The root and the sinks
// stay where they stand. `weights` has those of the sinks, and room for those of the branch points. The other lent arrays are room to work in.
pub fn make(
    h: Header,
    n: usize,
    xs: &mut [i64],
    ys: &mut [i64],
    required: &[i64],
    weights: &mut [i64],
    parents: &mut [usize],
    order: &mut [usize],
    room: &mut [usize],
    slacks: &mut [i64],
) -> Measures
    requires holds_net { HoldsNet h n xs.old ys.old required.now × HoldsWeights n weights.old }
    requires plan_room { PlanRoom n xs.old ys.old weights.old parents.old order.old room.old slacks.old }
    ensures tree { tree_of n parents.new xs.new ys.new ≡ weighted_tree (net_of h n xs.old ys.old required.now) (weights_of n weights.old) }
    ensures kept { (v : ℕ) → v ≤ n → point_at xs.new ys.new v ≡ point_at xs.old ys.old v }
    ensures worst { result.slack.0 ≡ worst_slack (net_of h n xs.old ys.old required.now) (weighted_tree (net_of h n xs.old ys.old required.now) (weights_of n weights.old)) }
    ensures wire { result.wire.0 ≡ wire_length (net_of h n xs.old ys.old required.now) (weighted_tree (net_of h n xs.old ys.old required.now) (weights_of n weights.old)) }
{
    order_by(n, weights, order);
    join_all(n, weights, order, parents);
    number_up(n, order);
    settle(n, parents, order, xs, ys, room);
    // From the root down.
    order[..2 * n - 1].reverse();
    let tree = TreeView { n, parents, xs, ys };
    tree.measure_tree(h, required, order, slacks)
}
