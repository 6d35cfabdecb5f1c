// The Kraft maximum: the worst slack of a plan that splits edges above sinks alone, for which no tree is kept.
ghost use Rattle.std.specs.Prelude.{◌≡◌, cond, ℕ, suc, ◌≤◌, ◌<◌, length, get_or, set, pos, ◌+ℤ◌, ◌-ℤ◌};
ghost use Rattle.std.specs.Int.Signed.{lt_z};
ghost use Rattle.quantities.specs.Ranges.{Within};
ghost use Rattle.quantities.specs.Inner.Reach.{term_reach, time_reach};
ghost use Rattle.tree.specs.Net.{Net, own_slacks};
ghost use Rattle.tree.specs.Kraft.{IsKraftMaximum};
ghost use Rattle.tree.specs.Inner.DerivedLimits.{own_slack_limit};
ghost use Rattle.tree.specs.Inner.Views.{viewed_net};
ghost use Rattle.tree.specs.SmallestSlack.{sinks_in};
ghost use Rattle.judging.specs.Inner.SinkSplits.{SinksReady, Kept, LargestAt, absent_limit, worst_if_split};

use quantities::time::Time;
use tree::limits::{BRANCH_LIMIT, POSITION_LIMIT, REQUIRED_LIMIT, SINK_LIMIT, WIRE_FACTOR_LIMIT};
use tree::order::order_sinks;
use tree::view::NetView;

// The n sinks while they go in: the slack of each that is in, the worst of these, and what a branch point costs.
#[derive(Clone, Copy, Debug)]
struct Slacks<'a> {
    n: usize,
    slacks: &'a [i64],
    worst: Time,
    branch: Time,
    ghost n_in_bounds: { n < length slacks.now },
    ghost in_reach: { (u : ℕ) → 1 ≤ u → u ≤ n → Within time_reach (get_or slacks.now u (pos 0)) },
    ghost branch_in_reach: { Within time_reach branch.0 },
}

// A sink, and what the worst slack becomes if the edge above it is split.
#[derive(Clone, Copy, Debug, PartialEq, Eq)]
struct Candidate {
    sink: usize,
    worst: Time,
}

impl Slacks<'_> {
    // What the worst slack becomes if the edge above sink u is split. The new sink is never worse off than u: its own slack is no less.
    fn worst_if_split(self, u: usize) -> Time
        requires { (1 ≤ u) × (u ≤ self.n) }
        ensures { result.0 ≡ worst_if_split self.entry.worst.0 self.entry.branch.0 self.entry.slacks.now u }
    {
        self.worst.min(Time::of(self.slacks[u]) - self.branch)
    }

    // The roomier of the best so far and sink u: u only where it leaves a larger worst slack.
    fn roomier(self, best: Candidate, u: usize) -> Candidate
        requires { (1 ≤ u) × (u ≤ self.n) }
        ensures sink { result.sink ≡ cond (lt_z best.worst.0 (worst_if_split self.entry.worst.0 self.entry.branch.0 self.entry.slacks.now u)) u best.sink }
        ensures worst { result.worst.0 ≡ cond (lt_z best.worst.0 (worst_if_split self.entry.worst.0 self.entry.branch.0 self.entry.slacks.now u)) (worst_if_split self.entry.worst.0 self.entry.branch.0 self.entry.slacks.now u) best.worst.0 }
    {
        let worst = self.worst_if_split(u);
        if best.worst < worst {
            return Candidate { sink: u, worst };
        }
        best
    }

    // The sink whose edge is best to split, and what is left then. No split leaves more than the worst slack that there is, so the search ends at the first
    // sink that leaves no less.
    fn roomiest_sink(self) -> Candidate
        requires { 1 ≤ self.n }
        ensures sink { LargestAt (worst_if_split self.entry.worst.0 self.entry.branch.0 self.entry.slacks.now) self.entry.n result.sink }
        ensures worst { result.worst.0 ≡ worst_if_split self.entry.worst.0 self.entry.branch.0 self.entry.slacks.now result.sink }
    {
        let mut best = Candidate {
            sink: 1,
            worst: self.worst_if_split(1),
        };
        for u in 2..self.n + 1 {
            if best.worst >= self.worst {
                return best;
            }
            best = self.roomier(best, u);
        }
        best
    }
}

// The slacks after the split of the edge above sink v: v has one branch point more above it, and sink s as many as v.
fn deepen(own: &[i64], slacks: &mut [i64], branch: Time, v: usize, s: usize)
    requires v_in_bounds { (v < length own.now) × (s < length own.now) × (v < length slacks.old) × (s < length slacks.old) }
    requires within { Within term_reach branch.0 × Within absent_limit (get_or slacks.old v (pos 0)) × Within own_slack_limit (get_or own.now v (pos 0)) × Within own_slack_limit (get_or own.now s (pos 0)) }
    ensures { slacks.new ≡ set (set slacks.old v (get_or slacks.old v (pos 0) -ℤ branch.0)) s (get_or own.now s (pos 0) -ℤ get_or own.now v (pos 0) +ℤ (get_or slacks.old v (pos 0) -ℤ branch.0)) }
{
    let lowered = Time::of(slacks[v]) - branch;
    let more = Time::of(own[s]) - Time::of(own[v]);
    slacks[v] = lowered.attoseconds();
    slacks[s] = (more + lowered).attoseconds();
}

// The next sink, at place k + 1 of the order, goes in beside the roomiest. The worst slack is returned.
fn next_worst(
    n: usize,
    k: usize,
    own: &[i64],
    sinks: &[usize],
    slacks: &mut [i64],
    branch: Time,
    worst: Time,
) -> Time
    requires sinks_ready { (N : Net) × (SinksReady N branch.0 n own.now sinks.now × Kept N (sinks_in N k) slacks.old worst.0) }
    requires k_bound { (suc k < n) × (n < length slacks.old) }
    ensures { (N : Net) → SinksReady N branch.0 n own.now sinks.now → Kept N (sinks_in N k) slacks.old worst.0 → Kept N (sinks_in N (suc k)) slacks.new result.0 }
{
    let so_far = Slacks {
        n,
        slacks,
        worst,
        branch,
    };
    let best = so_far.roomiest_sink();
    deepen(own, slacks, branch, best.sink, sinks[k + 1]);
    best.worst
}

// What stands for the slack of a sink that is not in: below every slack.
const ABSENT: i64 = -((REQUIRED_LIMIT
    + WIRE_FACTOR_LIMIT * (4 * POSITION_LIMIT)
    + (2 * SINK_LIMIT - 1) * BRANCH_LIMIT
    + 1) as i64);

// The worst slack when all sinks are in, in their order. `slacks` is room for the slacks.
fn worst_of_all(n: usize, own: &[i64], sinks: &[usize], slacks: &mut [i64], branch: Time) -> Time
    requires sinks_ready { (N : Net) × SinksReady N branch.0 n own.now sinks.now }
    requires n_in_bounds { n < length slacks.old }
    ensures { (N : Net) → SinksReady N branch.0 n own.now sinks.now → IsKraftMaximum N.branch (own_slacks N) result.0 }
{
    slacks[1..n + 1].fill(ABSENT);
    let first = sinks[0];
    let slack = own[first];
    slacks[first] = slack;
    let mut worst = Time::of(slack);
    for k in 0..n - 1 {
        worst = next_worst(n, k, own, sinks, slacks, branch, worst);
    }
    worst
}

// The Kraft maximum of a net. `own`, `slacks` and `sinks` are room to work in.
pub fn kraft_maximum(net: NetView, own: &mut [i64], slacks: &mut [i64], sinks: &mut [usize]) -> Time
    requires { (net.n < length own.old) × (net.n < length slacks.old) × (net.n ≤ length sinks.old) }
    ensures { IsKraftMaximum (viewed_net net.entry).branch (own_slacks (viewed_net net.entry)) result.0 }
{
    net.own_slacks(own);
    order_sinks(net.n, own, sinks);
    worst_of_all(net.n, own, sinks, slacks, net.header.branch)
}
