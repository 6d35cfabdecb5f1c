// Splitting an edge, as every plan that grows does it.
ghost use Rattle.std.specs.Prelude.{◌≡◌, ◌<◌, length, get_or, set};

// Splits the edge above v: branch point b takes its place, and v and sink s hang on b.
pub fn split_edge(parents: &mut [usize], b: usize, v: usize, s: usize)
    requires { (b < length parents.old) × (v < length parents.old) × (s < length parents.old) }
    ensures { parents.new ≡ set (set (set parents.old b (get_or parents.old v 0)) v b) s b }
{
    parents[b] = parents[v];
    parents[v] = b;
    parents[s] = b;
}
