// Step 4 of planning: settling, from the leaves up.
ghost use Rattle.std.specs.Prelude.{◌≡◌, List, ◌≢◌, ℕ, ◌+◌, ◌*◌, ◌-◌, ◌≤◌, ◌<◌, length, get_or, set, ℤ};
ghost use Rattle.tree.specs.declared.header.Header.{Header};
ghost use Rattle.tree.specs.Tree.{Legal};
ghost use Rattle.tree.specs.Settling.{children, settled_tree};
ghost use Rattle.tree.specs.Inner.Arrays.{point_at, parents_of, net_of, tree_of, median_at, Parents, LeavesUp, UnderRoot};

use crate::measure::point;
use crate::places::clear;
use quantities::point::median_point;

// Vertex v is a child of p: its first, or else its second.
fn add_child(kids: &mut [usize], p: usize, v: usize)
    requires { 2 * p + 1 < length kids.old }
    ensures first { get_or kids.old (2 * p) 0 ≡ 0 → kids.new ≡ set kids.old (2 * p) v }
    ensures second { get_or kids.old (2 * p) 0 ≢ 0 → kids.new ≡ set kids.old (2 * p + 1) v }
{
    if kids[2 * p] == 0 {
        kids[2 * p] = v;
    } else {
        kids[2 * p + 1] = v;
    }
}

// The two children of each branch point b, at the places 2b and 2b+1, the lower number first.
pub fn list_children(n: usize, parents: &[usize], kids: &mut [usize])
    requires { Parents n parents.now × Legal n (parents_of n parents.now) × (4 * n ≤ length kids.old) }
    ensures { (b : ℕ) → n < b → b < 2 * n → (get_or kids.new (2 * b) 0 ≡ get_or (children (parents_of n parents.now) b) 0 0) × (get_or kids.new (2 * b + 1) 0 ≡ get_or (children (parents_of n parents.now) b) 1 0) }
{
    clear(kids, 4 * n);
    for v in 1..2 * n {
        add_child(kids, parents[v], v);
    }
}

// Branch point b moves to the median of the root and its two children.
fn settle_one(xs: &mut [i64], ys: &mut [i64], kids: &[usize], b: usize)
    requires room { (b < length xs.old) × (b < length ys.old) × (2 * b + 1 < length kids.now) }
    requires left { (get_or kids.now (2 * b) 0 < length xs.old) × (get_or kids.now (2 * b) 0 < length ys.old) }
    requires right { (get_or kids.now (2 * b + 1) 0 < length xs.old) × (get_or kids.now (2 * b + 1) 0 < length ys.old) }
    ensures x { xs.new ≡ set xs.old b (median_at xs.old ys.old kids.now b).x }
    ensures y { ys.new ≡ set ys.old b (median_at xs.old ys.old kids.now b).y }
{
    let root = point(xs, ys, 0);
    let left = point(xs, ys, kids[2 * b]);
    let right = point(xs, ys, kids[2 * b + 1]);
    let middle = median_point(root, left, right);
    xs[b] = middle.x;
    ys[b] = middle.y;
}

// Branch point v moves to its place; a sink stays.
fn settle_vertex(n: usize, xs: &mut [i64], ys: &mut [i64], kids: &[usize], v: usize)
    requires room { (v < length xs.old) × (v < length ys.old) × (n < v → 2 * v + 1 < length kids.now) }
    requires left { n < v → (get_or kids.now (2 * v) 0 < length xs.old) × (get_or kids.now (2 * v) 0 < length ys.old) }
    requires right { n < v → (get_or kids.now (2 * v + 1) 0 < length xs.old) × (get_or kids.now (2 * v + 1) 0 < length ys.old) }
    ensures sink { v ≤ n → (xs.new ≡ xs.old) × (ys.new ≡ ys.old) }
    ensures branch { n < v → (xs.new ≡ set xs.old v (median_at xs.old ys.old kids.now v).x) × (ys.new ≡ set ys.old v (median_at xs.old ys.old kids.now v).y) }
{
    if n < v {
        settle_one(xs, ys, kids, v);
    }
}

// Settles a legal tree whose vertices stand in `upward` from the leaves up. The root and the sinks stay; `kids` is room for the children.
pub fn settle(
    n: usize,
    parents: &[usize],
    upward: &[usize],
    xs: &mut [i64],
    ys: &mut [i64],
    kids: &mut [usize],
)
    requires parents { Parents n parents.now × Legal n (parents_of n parents.now) × LeavesUp (UnderRoot n) (2 * n - 1) parents.now upward.now }
    requires n_in_bounds { (2 * n ≤ length upward.now) × (2 * n ≤ length xs.old) × (2 * n ≤ length ys.old) × (4 * n ≤ length kids.old) }
    ensures tree { (h : Header) (required : List ℤ) → tree_of n parents.now xs.new ys.new ≡ settled_tree (net_of h n xs.old ys.old required) (parents_of n parents.now) }
    ensures kept { (v : ℕ) → v ≤ n → point_at xs.new ys.new v ≡ point_at xs.old ys.old v }
{
    list_children(n, parents, kids);
    for &v in &upward[..2 * n - 1] {
        settle_vertex(n, xs, ys, kids, v);
    }
}
