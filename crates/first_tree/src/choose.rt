// The edge that the next sink splits: of the largest worst slack, then of the nearest lower end, then of its lowest number.
ghost use Rattle.std.specs.Prelude.{◌≡◌, List, ℕ, suc, ◌+◌, ◌≤◌, ◌<◌, length, get_or, pos, ◌≤ℤ◌};
ghost use Rattle.quantities.specs.Ranges.{Within};
ghost use Rattle.quantities.specs.Inner.Reach.{time_reach};
ghost use Rattle.tree.specs.Limits.{sink_limit};
ghost use Rattle.tree.specs.SmallestSlack.{score_of};
ghost use Rattle.first_tree.specs.Inner.Choice.{far_at, first_of, edge_to, scored_at, roomier_of, RoomiestFrom, BestEnd, BestEdge, SinkEnd, SinkFrom, AnyEnd, NoneRoomier, FirstAsGood};
ghost use Rattle.first_tree.specs.Inner.Places.{SinkWithin, CanScore};

use crate::pins::Pins;
use crate::scoring::Scoring;
use quantities::length::Length;
use quantities::time::Time;

// An edge that may be split: its lower end, what the worst slack becomes, and how far the lower end is from the new sink.
#[derive(Clone, Copy, Debug, PartialEq, Eq)]
pub struct Edge {
    pub end: usize,
    pub score: Time,
    pub far: Length,
}

// A sink that is in, by its place in the order of insertion, and what its edge scores.
#[derive(Clone, Copy, Debug, PartialEq, Eq)]
pub struct Scored {
    pub place: usize,
    pub score: Time,
}

// The nearer of two edges that score the same, or the one of the lower number.
fn nearer_of(a: Edge, b: Edge) -> Edge
    requires { a.score.0 ≡ b.score.0 }
    ensures { result ≡ first_of a b }
{
    // Most are farther off, which the distances alone tell.
    if b.far < a.far {
        return b;
    }
    if (a.far, a.end) < (b.far, b.end) {
        a
    } else {
        b
    }
}

// The better of the best sink so far and the one at place i of the order: this only where it scores more.
fn or_roomier(best: Scored, sinks: &[usize], scoring: Scoring, i: usize) -> Scored
    requires { (i < length sinks.now) × CanScore scoring.slacks.now (get_or sinks.now i 0) }
    ensures { result ≡ roomier_of (scored_at (score_of scoring.entry.branch.0 scoring.entry.slacks.now) sinks.now i) best }
{
    let score = scoring.score_of(sinks[i]);
    if best.score < score {
        Scored { place: i, score }
    } else {
        best
    }
}

// The sink of the best score, looked for from the last of the first m: those that went in last have the most room. No edge scores more than the worst slack,
// so the search ends at the first that keeps it.
fn roomiest(m: usize, sinks: &[usize], scoring: Scoring) -> Scored
    requires le_m { (1 ≤ m) × (m ≤ length sinks.now) }
    requires by_index { (i : ℕ) → i < m → CanScore scoring.slacks.now (get_or sinks.now i 0) }
    ensures { RoomiestFrom (score_of scoring.entry.branch.0 scoring.entry.slacks.now) sinks.now 0 m result }
{
    let worst = Time::of(scoring.slacks[0]);
    let mut best = Scored {
        place: m - 1,
        score: scoring.score_of(sinks[m - 1]),
    };
    for i in (0..m - 1).rev() {
        if worst <= best.score {
            return best;
        }
        best = or_roomier(best, sinks, scoring, i);
    }
    best
}

// The better of the best edge so far and the one to sink u, which scores no more: u needs room for as much, and then the nearer goes first.
fn or_nearer_sink(best: Edge, pins: Pins, scoring: Scoring, u: usize, s: usize) -> Edge
    requires u_in { (s ≤ pins.n) × SinkWithin pins.n scoring.slacks.now u }
    requires u_bound { (score_of scoring.branch.0 scoring.slacks.now u ≤ℤ best.score.0) × (best.score.0 ≤ℤ get_or scoring.slacks.now 0 (pos 0)) }
    ensures { result ≡ first_of (edge_to (score_of scoring.entry.branch.0 scoring.entry.slacks.now) (far_at pins.entry.n pins.entry.xs.now pins.entry.ys.now s) u) best }
{
    if scoring.lacks_room(u, best.score) {
        return best;
    }
    let far = pins.far_apart(u, s);
    nearer_of(
        Edge {
            end: u,
            far,
            ..best
        },
        best,
    )
}

// The best edge to one of the sinks, where `found` is the best to one of those from place `left` on, and those before it score no more.
// It is no part of its caller: so the loop has the registers for itself.
#[inline(never)]
fn or_nearer_sinks(
    found: Edge,
    left: usize,
    pins: Pins,
    sinks: &[usize],
    scoring: Scoring,
    s: usize,
) -> Edge
    requires s_in { (s ≤ pins.n) × (left ≤ length sinks.now) }
    requires by_index { (i : ℕ) → i < left → SinkWithin pins.n scoring.slacks.now (get_or sinks.now i 0) }
    requires by_index_2 { ((i : ℕ) → i < left → score_of scoring.branch.0 scoring.slacks.now (get_or sinks.now i 0) ≤ℤ found.score.0) × (found.score.0 ≤ℤ get_or scoring.slacks.now 0 (pos 0)) }
    ensures { (m : ℕ) → left ≤ m → BestEdge (SinkFrom sinks.now left m) (score_of scoring.entry.branch.0 scoring.entry.slacks.now) (far_at pins.entry.n pins.entry.xs.now pins.entry.ys.now s) found → BestEdge (SinkFrom sinks.now 0 m) (score_of scoring.entry.branch.0 scoring.entry.slacks.now) (far_at pins.entry.n pins.entry.xs.now pins.entry.ys.now s) result }
{
    let mut best = found;
    for i in (0..left).rev() {
        best = or_nearer_sink(best, pins, scoring, sinks[i], s);
    }
    best
}

// The best edge to one of the first m sinks: of those that score as much as the roomiest the nearest.
fn best_sink(m: usize, pins: Pins, sinks: &[usize], scoring: Scoring, s: usize) -> Edge
    requires s_in { (s ≤ pins.n) × (1 ≤ m) × (m ≤ length sinks.now) }
    requires by_index { (i : ℕ) → i < m → SinkWithin pins.n scoring.slacks.now (get_or sinks.now i 0) }
    ensures { BestEdge (SinkEnd sinks.now m) (score_of scoring.entry.branch.0 scoring.entry.slacks.now) (far_at pins.entry.n pins.entry.xs.now pins.entry.ys.now s) result }
{
    let Scored { place, score } = roomiest(m, sinks, scoring);
    let u = sinks[place];
    let best = Edge {
        end: u,
        score,
        far: pins.far_apart(u, s),
    };
    or_nearer_sinks(best, place, pins, sinks, scoring, s)
}

// The lowest of the branch points n+1 to n+k that scores as much as `best`, or the end of `best` where none does.
fn first_as_good(best: Edge, n: usize, k: usize, scoring: Scoring) -> usize
    requires n_le_sink_limit { (n ≤ sink_limit) × (k ≤ n) × (n + k < length scoring.slacks.now) }
    requires by_index { (b : ℕ) → n < b → b ≤ n + k → Within time_reach (get_or scoring.slacks.now b (pos 0)) }
    ensures { FirstAsGood scoring.entry.branch.0 scoring.entry.slacks.now best.score.0 n k best.end result }
{
    for b in n + 1..n + k + 1 {
        if !scoring.scores_less(b, best.score) {
            return b;
        }
    }
    best.end
}

// The lower end of the best edge: that of `best`, the best to a sink, or, where the root is nearer, the lowest branch point that scores as much. None scores more.
fn or_branch_point(best: Edge, n: usize, k: usize, scoring: Scoring, far: Length) -> usize
    requires n_le_sink_limit { (n ≤ sink_limit) × (k ≤ n) × (n + k < length scoring.slacks.now) }
    requires by_index { (b : ℕ) → n < b → b ≤ n + k → Within time_reach (get_or scoring.slacks.now b (pos 0)) }
    ensures { (sinks : List ℕ) (d : ℕ → ℕ) → ((i : ℕ) → i < suc k → get_or sinks i 0 ≤ n) → ((b : ℕ) → n < b → d b ≡ far.0) → NoneRoomier n k sinks scoring.entry.slacks.now → BestEdge (SinkEnd sinks (suc k)) (score_of scoring.entry.branch.0 scoring.entry.slacks.now) d best → BestEnd (AnyEnd sinks (suc k) n k) (score_of scoring.entry.branch.0 scoring.entry.slacks.now) d result }
{
    if far < best.far {
        first_as_good(best, n, k, scoring)
    } else {
        best.end
    }
}

// The lower end of the edge that sink s splits, where the first k + 1 sinks and k branch points are in.
pub fn choose(k: usize, pins: Pins, sinks: &[usize], scoring: Scoring, s: usize) -> usize
    requires s_in { (s ≤ pins.n) × (pins.n ≤ sink_limit) × (suc k ≤ pins.n) × (suc k ≤ length sinks.now) × (pins.n + k < length scoring.slacks.now) }
    requires by_index { (i : ℕ) → i < suc k → SinkWithin pins.n scoring.slacks.now (get_or sinks.now i 0) }
    requires by_index_2 { (b : ℕ) → pins.n < b → b ≤ pins.n + k → Within time_reach (get_or scoring.slacks.now b (pos 0)) }
    requires none_roomier { NoneRoomier pins.n k sinks.now scoring.slacks.now }
    ensures { BestEnd (AnyEnd sinks.now (suc k) pins.entry.n k) (score_of scoring.entry.branch.0 scoring.entry.slacks.now) (far_at pins.entry.n pins.entry.xs.now pins.entry.ys.now s) result }
{
    let nearest = best_sink(k + 1, pins, sinks, scoring, s);
    let far = pins.far_apart(0, s);
    or_branch_point(nearest, pins.n, k, scoring, far)
}
