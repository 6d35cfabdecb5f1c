// The short tree grows: the nearest sink first, then always the sink and the edge that add least.
ghost use Rattle.std.specs.Prelude.{◌≡◌, ◌≢◌, ℕ, suc, ◌≤◌, ◌<◌, length, get_or, set};
ghost use Rattle.tree.specs.Net.{Net};
ghost use Rattle.tree.specs.Inner.Arrays.{point_at, tree_of};
ghost use Rattle.short_tree.specs.ShortTree.{short};
ghost use Rattle.short_tree.specs.Inner.Arrays.{meeting_at, added_at, Pins, HoldsPins, Room, Held};

use crate::choose::{nearest_sink, next_sink};
use crate::edge::Grown;
use crate::renew::renew;
use quantities::point::Point;
use tree::split::split_edge;

// The edge to the first sink is kept for each sink; the first itself is in.
fn keep_first(tree: Grown, kept: &mut [usize], costs: &mut [u64], first: usize)
    requires { (1 ≤ first) × (first ≤ tree.last) × (tree.last < length kept.old) × (tree.last < length costs.old) }
    ensures inside { get_or kept.new first 0 ≡ 0 }
    ensures waiting { let t = tree.entry in (s : ℕ) → 1 ≤ s → s ≤ t.last → s ≢ first → (get_or kept.new s 0 ≡ first) × (get_or costs.new s 0 ≡ added_at t.parents.now t.xs.now t.ys.now s first) }
    ensures beyond { (v : ℕ) → tree.entry.last < v → get_or kept.new v 0 ≡ get_or kept.old v 0 }
{
    for s in 1..=tree.last {
        kept[s] = first;
        costs[s] = tree.edge_to(s, first).added.nanometres();
    }
    kept[first] = 0;
}

// Sink s meets the edge to v at m: branch point b stands there, and takes the place of v; v and s hang on b.
fn join(
    xs: &mut [i64],
    ys: &mut [i64],
    parents: &mut [usize],
    b: usize,
    m: Point,
    s: usize,
    v: usize,
)
    requires v_and_s { (v < length parents.old) × (s < length parents.old) }
    requires b_in_bounds { (b < length xs.old) × (b < length ys.old) × (b < length parents.old) }
    ensures x { xs.new ≡ set xs.old b m.x }
    ensures y { ys.new ≡ set ys.old b m.y }
    ensures parents { parents.new ≡ set (set (set parents.old b (get_or parents.old v 0)) v b) s b }
{
    xs[b] = m.x;
    ys[b] = m.y;
    split_edge(parents, b, v, s);
}

// Insertion k + 1.
fn insert_next(
    n: usize,
    k: usize,
    xs: &mut [i64],
    ys: &mut [i64],
    parents: &mut [usize],
    kept: &mut [usize],
    costs: &mut [u64],
)
    requires { ((N : Net) × (Pins N n × Held N n k xs.old ys.old parents.old kept.old costs.old)) × (suc k < n) }
    ensures { (N : Net) → Pins N n → Held N n k xs.old ys.old parents.old kept.old costs.old → Held N n (suc k) xs.new ys.new parents.new kept.new costs.new }
{
    let tree = Grown {
        last: n + k,
        parents,
        xs,
        ys,
    };
    let s = next_sink(tree, n, kept, costs);
    let v = kept[s];
    let m = tree.meeting(s, v);
    kept[s] = 0;
    let b = n + k + 1;
    join(xs, ys, parents, b, m, s, v);
    let grown = Grown {
        last: b,
        parents,
        xs,
        ys,
    };
    renew(grown, n, kept, costs, s);
}

// The short tree goes to `parents` and to the places of the branch points in `xs` and `ys`. The root and the sinks stay where they stand; `kept` and
// `costs` are room to work in.
pub fn short(
    n: usize,
    xs: &mut [i64],
    ys: &mut [i64],
    parents: &mut [usize],
    kept: &mut [usize],
    costs: &mut [u64],
)
    requires holds_pins { (N : Net) × HoldsPins N n xs.old ys.old }
    requires room { Room n xs.old ys.old parents.old kept.old costs.old }
    ensures tree { (N : Net) → HoldsPins N n xs.old ys.old → tree_of n parents.new xs.new ys.new ≡ short N }
    ensures kept { (v : ℕ) → v ≤ n → point_at xs.new ys.new v ≡ point_at xs.old ys.old v }
{
    parents[..2 * n].fill(0);
    kept[..2 * n].fill(0);
    let first = nearest_sink(n, xs, ys);
    let star = Grown {
        last: n,
        parents,
        xs,
        ys,
    };
    keep_first(star, kept, costs, first);
    for k in 0..n - 1 {
        insert_next(n, k, xs, ys, parents, kept, costs);
    }
}
