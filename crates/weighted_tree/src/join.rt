// The two free vertices of least total weight are joined, again and again. The free sinks wait in one queue, by (weight, number), and the free branch points
// in another, by number: their total weights never fall. So the next to be joined is the first of one queue.
ghost use Rattle.std.specs.Prelude.{◌≡◌, cond, List, ℕ, suc, ◌+◌, ◌*◌, ◌≤◌, ◌<◌, length, get_or, take, pos};
ghost use Rattle.tree.specs.Lists.{range};
ghost use Rattle.tree.specs.Planning.{sort};
ghost use Rattle.tree.specs.Limits.{sink_limit, WeightsInRange};
ghost use Rattle.tree.specs.Inner.Arrays.{parents_of, weights_of, HoldsWeights};
ghost use Rattle.tree.specs.Inner.Insertion.{earlier_by};
ghost use Rattle.weighted_tree.specs.Joining.{joined_after, joined_parents};
ghost use Rattle.weighted_tree.specs.Inner.Arrays.{HoldsQueues, SinkFirst, BranchFirst, Takes, Joined};

// The free vertices before join k + 1, in two queues: the sinks in `order`, of which the first `sinks` have been taken, and the k branch points, of which the
// first `branches` have.
#[derive(Clone, Copy, Debug)]
struct Queues<'a> {
    n: usize,
    k: usize,
    weights: &'a [i64],
    order: &'a [usize],
    sinks: usize,
    branches: usize,
    ghost held: { HoldsQueues n k weights.now order.now sinks branches },
}

impl Queues<'_> {
    // Whether the first sink goes before the first branch point: also on a tie, since its number is lower.
    fn sink_goes_first(&self) -> bool
        requires { self.now.sinks + self.now.branches < self.now.n + self.now.k }
        ensures { cond result (SinkFirst self.now.n self.now.k (λ v. get_or self.now.weights.now v (pos 0)) (λ q. get_or self.now.order.now q 0) self.now.sinks self.now.branches) (BranchFirst self.now.n self.now.k (λ v. get_or self.now.weights.now v (pos 0)) (λ q. get_or self.now.order.now q 0) self.now.sinks self.now.branches) }
    {
        if self.sinks == self.n {
            return false;
        }
        if self.branches == self.k {
            return true;
        }
        let sink = self.weights[self.order[self.sinks]];
        let branch = self.weights[self.n + self.branches + 1];
        sink <= branch
    }

    // The vertex that goes first is taken off its queue.
    fn take_first(&mut self) -> usize
        requires { self.old.sinks + self.old.branches < self.old.n + self.old.k }
        ensures takes { Takes self.old.n self.old.k (λ v. get_or self.old.weights.now v (pos 0)) (λ q. get_or self.old.order.now q 0) self.old.sinks self.old.branches result self.new.sinks self.new.branches }
        ensures same { (self.new.n ≡ self.old.n) × (self.new.k ≡ self.old.k) × (self.new.weights.now ≡ self.old.weights.now) × (self.new.order.now ≡ self.old.order.now) }
    {
        if self.sink_goes_first() {
            let sink = self.order[self.sinks];
            self.sinks += 1;
            return sink;
        }
        let branch = self.n + self.branches + 1;
        self.branches += 1;
        branch
    }
}

// Join k + 1: the new branch point takes the two that go first. Of the 2k vertices that are joined i are sinks; how many are then is returned.
fn join_next(
    n: usize,
    k: usize,
    i: usize,
    weights: &mut [i64],
    order: &[usize],
    parents: &mut [usize],
) -> usize
    requires k_bound { (suc k < n) × (n ≤ sink_limit) × (2 * n ≤ length weights.old) × (n ≤ length order.now) × (2 * n ≤ length parents.old) }
    requires by_index { (w : List ℕ) × (WeightsInRange n w × Joined n k i (joined_after n w k) weights.old order.now parents.old) }
    ensures { (w : List ℕ) → WeightsInRange n w → Joined n k i (joined_after n w k) weights.old order.now parents.old → Joined n (suc k) result (joined_after n w (suc k)) weights.new order.now parents.new }
{
    let mut queues = Queues {
        n,
        k,
        weights,
        order,
        sinks: i,
        branches: 2 * k - i,
    };
    let x = queues.take_first();
    let y = queues.take_first();
    let sinks = queues.sinks;
    let b = n + k + 1;
    weights[b] = weights[x] + weights[y];
    parents[x] = b;
    parents[y] = b;
    sinks
}

// All are joined; the one that is left hangs on the root. `order` has the sinks by (weight, number). The total weights of the joined vertices go to their
// places in `weights`.
pub fn join_all(n: usize, weights: &mut [i64], order: &[usize], parents: &mut [usize])
    requires { HoldsWeights n weights.old × (1 ≤ n) × (n ≤ sink_limit) × (2 * n ≤ length weights.old) × (2 * n ≤ length parents.old) × (n ≤ length order.now) × (take n order.now ≡ sort (earlier_by weights.old) (range 1 n)) }
    ensures { parents_of n parents.new ≡ joined_parents n (weights_of n weights.old) }
{
    parents[..2 * n].fill(0);
    let mut i = 0;
    for k in 0..n - 1 {
        i = join_next(n, k, i, weights, order, parents);
    }
}
