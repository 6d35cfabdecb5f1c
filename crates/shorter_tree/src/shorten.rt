// A net and a tree in arrays without one of their sinks, and the measures of what remains.
ghost use Rattle.std.specs.Prelude.{◌≡◌, ◌≤◌};
ghost use Rattle.tree.specs.Measures.{worst_slack, wire_length};
ghost use Rattle.tree.specs.Inner.Arrays.{net_of, tree_of};
ghost use Rattle.operations.specs.Inner.Acceptance.{HasRoom};
ghost use Rattle.shorter_tree.specs.Deletion.{without, pruned};
ghost use Rattle.shorter_tree.specs.Inner.Arrays.{HoldsLegal, HoldsShorter};

use crate::close_up::close_up_all;
use tree::descend::lowest_unreached;
use tree::header::Header;
use tree::measures::Measures;
use tree::view::TreeView;

// Sink s of n goes; the worst slack and the wire of the shorter tree are returned. Each of its vertices is reached, so that `queue` then has them from the root
// down. `first`, `second`, `queue` and `slacks` are room to work in.
pub fn shorten(
    header: Header,
    n: usize,
    s: usize,
    parents: &mut [usize],
    xs: &mut [i64],
    ys: &mut [i64],
    required: &mut [i64],
    weights: &mut [i64],
    first: &mut [usize],
    second: &mut [usize],
    queue: &mut [usize],
    slacks: &mut [i64],
) -> Measures
    requires held { HoldsLegal header n parents.old xs.old ys.old required.old weights.old }
    requires room { (2 ≤ n) × (1 ≤ s) × (s ≤ n) × HasRoom n first.old second.old queue.old slacks.old }
    ensures shorter { HoldsShorter n s parents.old xs.old ys.old required.old weights.old parents.new xs.new ys.new required.new weights.new }
    ensures worst { result.slack.0 ≡ worst_slack (without (net_of header n xs.old ys.old required.old) s) (pruned (net_of header n xs.old ys.old required.old) (tree_of n parents.old xs.old ys.old) s) }
    ensures wire { result.wire.0 ≡ wire_length (without (net_of header n xs.old ys.old required.old) s) (pruned (net_of header n xs.old ys.old required.old) (tree_of n parents.old xs.old ys.old) s) }
{
    close_up_all(n, s, parents, xs, ys, required, weights);
    let m = n - 1;
    lowest_unreached(m, parents, first, second, queue);
    let tree = TreeView {
        n: m,
        parents,
        xs,
        ys,
    };
    tree.measure_tree(header, required, queue, slacks)
}
