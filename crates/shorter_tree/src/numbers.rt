// The vertex numbers close up: sink s and its branch point b are gone.
ghost use Rattle.std.specs.Prelude.{◌≡◌, ◌*◌, ◌≤◌, ◌<◌};
ghost use Rattle.tree.specs.Limits.{sink_limit};
ghost use Rattle.shorter_tree.specs.Deletion.{renumber, above};
ghost use Rattle.shorter_tree.specs.Inner.Arrays.{old};

// What hung on b hangs on a, the parent of b.
pub fn above_gone(b: usize, a: usize, u: usize) -> usize
    ensures { result ≡ above b a u }
{
    if u == b { a } else { u }
}

// The new number of vertex v.
pub fn new_number(s: usize, b: usize, v: usize) -> usize
    requires { s < b }
    ensures { result ≡ renumber s b v }
{
    if v <= s {
        return v;
    }
    if v <= b {
        return v - 1;
    }
    v - 2
}

// The vertex that comes to the number x.
pub fn old_number(s: usize, b: usize, x: usize) -> usize
    requires { (s < b) × (x ≤ 2 * sink_limit) }
    ensures { result ≡ old s b x }
{
    if x < s {
        return x;
    }
    if x + 1 < b {
        return x + 1;
    }
    x + 2
}
