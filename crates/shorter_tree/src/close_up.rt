// A net, its weights and its tree close up in the arrays that hold them, in place: what is read was never written, since no new number is above the old one.
ghost use Rattle.std.specs.Prelude.{ℕ, ◌*◌, ◌≤◌, ◌<◌, ◌≡◌, length, get_or};
ghost use Rattle.tree.specs.Limits.{sink_limit};
ghost use Rattle.tree.specs.Tree.{Legal};
ghost use Rattle.tree.specs.Inner.Arrays.{parents_of, Parents};
ghost use Rattle.shorter_tree.specs.Inner.Arrays.{old, HoldsShorter};

use crate::numbers::{above_gone, new_number, old_number};

// What stands at the places of the vertices that remain moves to their new numbers, below m, and f of it stands there.
fn close_up<T: Copy, F: Fn(T) -> T>(values: &mut [T], s: usize, b: usize, m: usize, f: F)
    requires numbers { (1 ≤ s) × (s < b) × (m ≤ 2 * sink_limit) × (m ≤ length values.old) × ((x : ℕ) → x < m → old s b x < length values.old) }
    requires callable { F.IsAlwaysCallable f }
    ensures closed { (x : ℕ) (d : T) → 1 ≤ x → x < m → F.post f (get_or values.old (old s b x) d) (get_or values.new x d) }
    ensures first { (d : T) → get_or values.new 0 d ≡ get_or values.old 0 d }
{
    for x in 1..m {
        let v = old_number(s, b, x);
        values[x] = f(values[v]);
    }
}

// Sink s of n goes, with its branch point: the arrays then hold the net, the weights and the tree of the n - 1 others.
pub fn close_up_all(
    n: usize,
    s: usize,
    parents: &mut [usize],
    xs: &mut [i64],
    ys: &mut [i64],
    required: &mut [i64],
    weights: &mut [i64],
)
    requires tree { Parents n parents.old × Legal n (parents_of n parents.old) × (2 ≤ n) × (1 ≤ s) × (s ≤ n) }
    requires room { (2 * n ≤ length xs.old) × (2 * n ≤ length ys.old) × (n < length required.old) × (n < length weights.old) }
    ensures { HoldsShorter n s parents.old xs.old ys.old required.old weights.old parents.new xs.new ys.new required.new weights.new }
{
    let b = parents[s];
    let a = parents[b];
    let m = 2 * n - 2;
    close_up(parents, s, b, m, |u| new_number(s, b, above_gone(b, a, u)));
    close_up(xs, s, b, m, |x| x);
    close_up(ys, s, b, m, |y| y);
    close_up(required, s, b, n, |r| r);
    close_up(weights, s, b, n, |w| w);
}
