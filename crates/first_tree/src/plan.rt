// The first plan (document 000, P1).
ghost use Rattle.std.specs.Prelude.{◌≡◌, ℕ, ◌*◌, ◌≤◌, ◌<◌, length};
ghost use Rattle.tree.specs.Measures.{worst_slack, wire_length};
ghost use Rattle.tree.specs.Settling.{plan};
ghost use Rattle.tree.specs.Inner.Arrays.{point_at, net_of, tree_of, HoldsNet};

use crate::insert::insert_all;
use crate::pins::Pins;
use tree::header::Header;
use tree::measures::Measures;
use tree::order::order_sinks;
use tree::settle::settle;
use tree::view::{NetView, TreeView};

// The planned tree goes to `parents` and to the places of the branch points in `xs` and `ys`; its worst slack and its wire are returned.
// The root and the sinks stay where they stand. The other lent arrays are room to work in.
// The net comes as its parts, not as a view: a view is read only, and the branch points' places are written.
pub fn plan(
    h: Header,
    n: usize,
    xs: &mut [i64],
    ys: &mut [i64],
    required: &[i64],
    parents: &mut [usize],
    own: &mut [i64],
    slacks: &mut [i64],
    room: &mut [usize],
    levels: &mut [usize],
    below: &mut [usize],
) -> Measures
    requires holds_net { HoldsNet h n xs.old ys.old required.now }
    requires n_in_bounds { (2 * n ≤ length xs.old) × (2 * n ≤ length ys.old) × (2 * n ≤ length parents.old) × (n < length own.old) × (2 * n ≤ length slacks.old) × (4 * n ≤ length room.old) × (2 * n ≤ length levels.old) × (2 * n ≤ length below.old) }
    ensures tree { tree_of n parents.new xs.new ys.new ≡ plan (net_of h n xs.old ys.old required.now) }
    ensures kept { (v : ℕ) → v ≤ n → point_at xs.new ys.new v ≡ point_at xs.old ys.old v }
    ensures worst { result.slack.0 ≡ worst_slack (net_of h n xs.old ys.old required.now) (plan (net_of h n xs.old ys.old required.now)) }
    ensures wire { result.wire.0 ≡ wire_length (net_of h n xs.old ys.old required.now) (plan (net_of h n xs.old ys.old required.now)) }
{
    let net = NetView {
        header: h,
        n,
        xs,
        ys,
        required,
    };
    net.own_slacks(own);
    order_sinks(n, own, room);
    let pins = Pins { n, xs, ys };
    insert_all(h.branch, pins, own, room, levels, slacks, parents, below);
    settle(n, parents, levels, xs, ys, room);
    TreeView { n, parents, xs, ys }.measure(slacks)
}
