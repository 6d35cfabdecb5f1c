// Down a tree from the root, by a queue: the root's child, then the children of each branch point. What is never queued is not reached.
ghost use Rattle.std.specs.Prelude.{◌≡◌, List, ℕ, ◌+◌, ◌*◌, ◌-◌, ◌≤◌, ◌<◌, ◌==◌, length, get_or, set};
ghost use Rattle.std.specs.List.{find, range_with_len};
ghost use Rattle.tree.specs.Defects.{wrong_children, unreached};
ghost use Rattle.tree.specs.Inner.Arrays.{parents_of, Parents, RootDown};
ghost use Rattle.tree.specs.Inner.Descent.{Linked, Descended, MarksQueued};

use crate::places::clear;

// The children of each vertex, the lower number first. Where a vertex has fewer than two, what stands besides means nothing: nothing is cleared.
fn link_children(n: usize, parents: &[usize], first: &mut [usize], second: &mut [usize])
    requires { Parents n parents.now × (wrong_children n (parents_of n parents.now) ≡ None) × (2 * n ≤ length first.old) × (2 * n ≤ length second.old) }
    ensures { Linked n parents.now first.new second.new }
{
    for v in (1..2 * n).rev() {
        let p = parents[v];
        second[p] = first[p];
        first[p] = v;
    }
}

// The children of v go to the end of the queue; a sink has none. What is returned is where the queue then ends.
fn queue_children(
    n: usize,
    first: &[usize],
    second: &[usize],
    queue: &mut [usize],
    end: usize,
    v: usize,
) -> usize
    requires { n < v → (v < length first.now) × (v < length second.now) × (end + 1 < length queue.old) }
    ensures sink { v ≤ n → (result ≡ end) × (queue.new ≡ queue.old) }
    ensures branch { n < v → (result ≡ end + 2) × (queue.new ≡ set (set queue.old end (get_or first.now v 0)) (end + 1) (get_or second.now v 0)) }
{
    if v <= n {
        return end;
    }
    queue[end] = first[v];
    queue[end + 1] = second[v];
    end + 2
}

// Goes down from the root as far as the tree hangs together. What is returned is where the queue ends.
fn descend(n: usize, first: &[usize], second: &[usize], queue: &mut [usize]) -> usize
    requires tree { (ps : List ℕ) × Linked n ps first.now second.now }
    requires room { (2 * n ≤ length first.now) × (2 * n ≤ length second.now) × (2 * n ≤ length queue.old) }
    ensures { (ps : List ℕ) → Linked n ps first.now second.now → Descended n ps queue.new result result }
{
    queue[0] = first[0];
    let mut end = 1;
    let mut i = 0;
    // A while: the queue's end moves as it is walked.
    while i < end {
        let v = queue[i];
        end = queue_children(n, first, second, queue, end, v);
        i += 1;
    }
    end
}

// Marks the vertices that are in the queue.
fn mark_queued(n: usize, queue: &[usize], end: usize, marks: &mut [usize])
    requires { (end ≤ length queue.now) × (2 * n ≤ length marks.old) × ((j : ℕ) → j < end → get_or queue.now j 0 < 2 * n) }
    ensures { MarksQueued n queue.now end marks.new }
{
    clear(marks, 2 * n);
    for &v in &queue[..end] {
        marks[v] = 1;
    }
}

// The lowest vertex below the root that is not marked.
fn lowest_unmarked(n: usize, marks: &[usize]) -> Option<usize>
    requires { 2 * n ≤ length marks.now }
    ensures { result ≡ find (λ v. get_or marks.now v 0 == 0) (range_with_len 1 (2 * n - 1)) }
{
    (1..2 * n).find(|&v| marks[v] == 0)
}

// The lowest vertex that is not reached from the root, in a tree with the right numbers of children. Where there is none, `queue` holds the vertices from the
// root down. `first` and `second` are room for the children.
pub fn lowest_unreached(
    n: usize,
    parents: &[usize],
    first: &mut [usize],
    second: &mut [usize],
    queue: &mut [usize],
) -> Option<usize>
    requires parents { Parents n parents.now × (wrong_children n (parents_of n parents.now) ≡ None) }
    requires n_in_bounds { (2 * n ≤ length first.old) × (2 * n ≤ length second.old) × (2 * n ≤ length queue.old) }
    ensures found { result ≡ unreached n (parents_of n parents.now) }
    ensures order { result ≡ None → RootDown n parents.now queue.new }
{
    link_children(n, parents, first, second);
    let end = descend(n, first, second, queue);
    if end == 2 * n - 1 {
        return None;
    }
    mark_queued(n, queue, end, first);
    lowest_unmarked(n, first)
}
