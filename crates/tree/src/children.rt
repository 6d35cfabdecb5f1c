// How many children each vertex has, and the first vertex that has a wrong number of them.
ghost use Rattle.std.specs.Prelude.{◌≡◌, not, ℕ, ◌+◌, ◌*◌, ◌-◌, ◌≤◌, ◌<◌, ◌==◌, length, get_or};
ghost use Rattle.std.specs.List.{find, range_with_len};
ghost use Rattle.tree.specs.Lists.{count};
ghost use Rattle.tree.specs.Defects.{wrong_children};
ghost use Rattle.tree.specs.Inner.Arrays.{parents_of, Parents};

use crate::places::clear;

// The number of children of each vertex, for any parents.
pub fn count_children(n: usize, parents: &[usize], children: &mut [usize])
    requires { Parents n parents.now × (2 * n ≤ length children.old) }
    ensures { (u : ℕ) → u < 2 * n → get_or children.new u 0 ≡ count u (parents_of n parents.now) }
{
    clear(children, 2 * n);
    for v in 1..2 * n {
        children[parents[v]] += 1;
    }
}

// The lowest branch point whose number of children is not two.
fn wrong_branch_point(n: usize, children: &[usize]) -> Option<usize>
    requires { 2 * n ≤ length children.now }
    ensures { result ≡ find (λ b. not (get_or children.now b 0 == 2)) (range_with_len (n + 1) (2 * n - (n + 1))) }
{
    (n + 1..2 * n).find(|&b| children[b] != 2)
}

// The root if it has not one child, else the lowest branch point that has not two. `children` is room to count in.
pub fn wrong_children(n: usize, parents: &[usize], children: &mut [usize]) -> Option<usize>
    requires { Parents n parents.now × (2 * n ≤ length children.old) }
    ensures { result ≡ wrong_children n (parents_of n parents.now) }
{
    count_children(n, parents, children);
    if children[0] != 1 {
        return Some(0);
    }
    wrong_branch_point(n, children)
}
