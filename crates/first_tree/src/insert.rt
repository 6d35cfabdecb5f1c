// Steps 2 and 3 of planning: the sinks go in one after another, each by splitting the edge that leaves the largest worst slack.
ghost use Rattle.std.specs.Prelude.{◌≡◌, ℕ, suc, ◌+◌, ◌*◌, ◌-◌, ◌≤◌, ◌<◌, length, get_or, set, pos};
ghost use Rattle.tree.specs.Net.{Net};
ghost use Rattle.tree.specs.Limits.{sink_limit};
ghost use Rattle.tree.specs.Measures.{slack};
ghost use Rattle.tree.specs.Planning.{tie_rule, plan_parents};
ghost use Rattle.tree.specs.Settling.{plan_by};
ghost use Rattle.tree.specs.Inner.Arrays.{parents_of, LeavesUp, UnderRoot};
ghost use Rattle.tree.specs.Inner.Insertion.{Ready, Lined, Placed, HoldsSoFar};

use crate::choose::choose;
use crate::gather::regather;
use crate::pins::Pins;
use crate::scoring::Scoring;
use crate::upward::{put_before, write_out};
use quantities::time::Time;
use tree::places::clear;
use tree::split::split_edge;

// Insertion k + 1: the edges are tried from the gathered numbers, those of the enlarged tree are gathered, and the chosen edge is split.
// The four arrays of the tree so far are lent one by one, and not as a struct: each step reads some of them while it writes others.
fn insert_next(
    branch: Time,
    k: usize,
    pins: Pins,
    own: &[i64],
    sinks: &[usize],
    levels: &mut [usize],
    slacks: &mut [i64],
    parents: &mut [usize],
    below: &mut [usize],
)
    requires ready { (N : Net) × (Ready N branch.0 pins.n own.now × Lined N pins.n sinks.now × Placed N pins.n pins.xs.now pins.ys.now × HoldsSoFar N k parents.old below.old levels.old slacks.old) }
    requires k_bound { (suc k < pins.n) × (2 * pins.n ≤ length levels.old) × (2 * pins.n ≤ length slacks.old) × (2 * pins.n ≤ length parents.old) × (2 * pins.n ≤ length below.old) }
    ensures { (N : Net) → Ready N branch.0 pins.entry.n own.now → Lined N pins.entry.n sinks.now → Placed N pins.entry.n pins.entry.xs.now pins.entry.ys.now → HoldsSoFar N k parents.old below.old levels.old slacks.old → HoldsSoFar N (suc k) parents.new below.new levels.new slacks.new }
{
    let s = sinks[k + 1];
    let v = choose(k, pins, sinks, Scoring { slacks, branch }, s);
    let n = pins.n;
    regather(branch, n, k, own, parents, below, levels, slacks, v, s);
    put_before(below, parents[v], s, n + k + 1);
    split_edge(parents, n + k + 1, v, s);
}

// The first sink hangs on the root.
fn insert_first(
    n: usize,
    own: &[i64],
    first: usize,
    levels: &mut [usize],
    slacks: &mut [i64],
    parents: &mut [usize],
    below: &mut [usize],
)
    requires { (1 ≤ n) × (n ≤ sink_limit) × (first < length own.now) × (first < length levels.old) × (first < length slacks.old) × (2 * n ≤ length parents.old) × (first < length below.old) × (1 ≤ first) }
    ensures levels { levels.new ≡ set (set levels.old 0 0) first 1 }
    ensures slacks { slacks.new ≡ set (set slacks.old 0 (get_or own.now first (pos 0))) first (get_or own.now first (pos 0)) }
    ensures parents { (v : ℕ) → v < 2 * n → get_or parents.new v 0 ≡ 0 }
    ensures below { below.new ≡ set (set below.old 0 first) first 0 }
{
    clear(parents, 2 * n);
    below[0] = first;
    below[first] = 0;
    levels[0] = 0;
    levels[first] = 1;
    slacks[0] = own[first];
    slacks[first] = own[first];
}

// All sinks go in, in their order. The slacks of the sinks are left in `slacks`, and in `levels`, which has the edges above each vertex meanwhile, the order from the leaves up.
pub fn insert_all(
    branch: Time,
    pins: Pins,
    own: &[i64],
    sinks: &[usize],
    levels: &mut [usize],
    slacks: &mut [i64],
    parents: &mut [usize],
    below: &mut [usize],
)
    requires ready { (N : Net) × (Ready N branch.0 pins.n own.now × Lined N pins.n sinks.now × Placed N pins.n pins.xs.now pins.ys.now) }
    requires n_in_bounds { (2 * pins.n ≤ length levels.old) × (2 * pins.n ≤ length slacks.old) × (2 * pins.n ≤ length parents.old) × (2 * pins.n ≤ length below.old) }
    ensures tree { (N : Net) → Ready N branch.0 pins.entry.n own.now → Lined N pins.entry.n sinks.now → Placed N pins.entry.n pins.entry.xs.now pins.entry.ys.now → parents_of pins.entry.n parents.new ≡ plan_parents tie_rule N }
    ensures order { LeavesUp (UnderRoot pins.entry.n) (2 * pins.entry.n - 1) parents.new levels.new }
    ensures slacks { (N : Net) → Ready N branch.0 pins.entry.n own.now → Lined N pins.entry.n sinks.now → Placed N pins.entry.n pins.entry.xs.now pins.entry.ys.now → (s : ℕ) → 1 ≤ s → s ≤ pins.entry.n → get_or slacks.new s (pos 0) ≡ slack N (plan_by tie_rule N) s }
{
    let n = pins.n;
    insert_first(n, own, sinks[0], levels, slacks, parents, below);
    for k in 0..n - 1 {
        insert_next(branch, k, pins, own, sinks, levels, slacks, parents, below);
    }
    write_out(below, 2 * n - 1, levels);
}
