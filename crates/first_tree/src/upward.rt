// The order of a tree's vertices from the leaves up: each stands before its parent. While the tree grows it is a chain, `below`, which leads from each vertex to
// the one before it, and from the root to the last; so a split moves nothing.
ghost use Rattle.std.specs.Prelude.{◌≡◌, List, ℕ, ◌≤◌, ◌<◌, length, get_or, set};
ghost use Rattle.tree.specs.Inner.Arrays.{Chained};

// Puts s and b in right before u.
pub fn put_before(below: &mut [usize], u: usize, s: usize, b: usize)
    requires { (u < length below.old) × (s < length below.old) × (b < length below.old) }
    ensures { below.new ≡ set (set (set below.old s (get_or below.old u 0)) b s) u b }
{
    below[s] = below[u];
    below[b] = s;
    below[u] = b;
}

// The m vertices of the chain, from the leaves up, go to the first m places.
pub fn write_out(below: &[usize], m: usize, upward: &mut [usize])
    requires by_index { (us : List ℕ) × Chained m us below.now × ((i : ℕ) → i < m → get_or us i 0 < length below.now) }
    requires m_in_bounds { (m ≤ length upward.old) × (0 < length below.now) }
    ensures { (us : List ℕ) → Chained m us below.now → (i : ℕ) → i < m → get_or upward.new i 0 ≡ get_or us i 0 }
{
    let mut at = 0;
    for i in (0..m).rev() {
        at = below[at];
        upward[i] = at;
    }
}
