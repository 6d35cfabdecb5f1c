// The least slack under each vertex, gathered as the tree grows (02, request 3). What hangs under a split edge sinks as a whole, so its numbers fall alike;
// from the new branch point the least is handed up, from child to parent; all other numbers stay. The edges above each vertex tell what hangs under the split one.
ghost use Rattle.std.specs.Prelude.{◌≡◌, ◌≢◌, cond, List, ℕ, suc, ◌+◌, ◌*◌, ◌≤◌, ◌<◌, length, get_or, set, ℤ, pos, ◌-ℤ◌, ◌*ℤ◌};
ghost use Rattle.quantities.specs.MinMax.{min_ℤ};
ghost use Rattle.quantities.specs.Ranges.{Within};
ghost use Rattle.quantities.specs.Inner.Reach.{term_reach, time_reach};
ghost use Rattle.tree.specs.Lists.{count};
ghost use Rattle.tree.specs.Net.{Net};
ghost use Rattle.tree.specs.Limits.{sink_limit};
ghost use Rattle.tree.specs.Inner.DerivedLimits.{edge_limit};
ghost use Rattle.tree.specs.Inner.Arrays.{Chained};
ghost use Rattle.tree.specs.SmallestSlack.{next_sink, InTree, Gathered};
ghost use Rattle.tree.specs.Inner.Insertion.{Ready, Leveled, HoldsSoFar, SplitsNext};
ghost use Rattle.tree.specs.Inner.Regathering.{Deepens, DeepensUnder, Lowered, Falling, Raised, is_behind, way_up};

use quantities::time::Time;

// Where the parent of u has become one level deeper, u does too, and the least slack under it is lower by the cost of a branch point.
fn follow_parent(
    branch: Time,
    parents: &[usize],
    levels: &mut [usize],
    slacks: &mut [i64],
    u: usize,
)
    requires u_in_bounds { (u < length parents.now) × (u < length levels.old) × (get_or parents.now u 0 < length levels.old) × (u < length slacks.old) }
    requires u_bound { (get_or levels.old (get_or parents.now u 0) 0 ≤ 2 * sink_limit) × Within time_reach (get_or slacks.old u (pos 0)) × Within time_reach branch.0 }
    ensures levels { levels.new ≡ cond (is_behind parents.now levels.old u) (set levels.old u (get_or levels.old (get_or parents.now u 0) 0 + 1)) levels.old }
    ensures slacks { slacks.new ≡ cond (is_behind parents.now levels.old u) (set slacks.old u (get_or slacks.old u (pos 0) -ℤ branch.0)) slacks.old }
{
    let level = levels[parents[u]] + 1;
    if levels[u] < level {
        let least = Time::of(slacks[u]) - branch;
        levels[u] = level;
        slacks[u] = least.attoseconds();
    }
}

// Vertex v has become one level deeper: those under it, which stand before it, follow. There are less than m before it.
fn lower_below(
    branch: Time,
    parents: &[usize],
    below: &[usize],
    m: usize,
    v: usize,
    levels: &mut [usize],
    slacks: &mut [i64],
)
    requires by_index { (us : List ℕ) × (j : ℕ) × (D : ℕ → ℕ) × (ls : List ℕ) × (ss : List ℤ) × Chained m us below.now × (j < m) × (get_or us j 0 ≡ v) × Deepens parents.now us m j ls D × Lowered us m D branch.0 ls ss j levels.old slacks.old × ((h : ℕ) → h < j → get_or ls (get_or us h 0) 0 ≤ edge_limit) × ((h : ℕ) → h < j → Within time_reach (get_or ss (get_or us h 0) (pos 0))) × ((h : ℕ) → h < m → (get_or us h 0 < length parents.now) × (get_or us h 0 < length below.now) × (get_or us h 0 < length levels.old) × (get_or parents.now (get_or us h 0) 0 < length levels.old) × (get_or us h 0 < length slacks.old)) }
    requires within { Within time_reach branch.0 }
    ensures { (us : List ℕ) (j : ℕ) (D : ℕ → ℕ) (ls : List ℕ) (ss : List ℤ) → Chained m us below.now → j < m → get_or us j 0 ≡ v → Deepens parents.now us m j ls D → Lowered us m D branch.0 ls ss j levels.old slacks.old → Lowered us m D branch.0 ls ss 0 levels.new slacks.new }
{
    let mut at = below[v];
    for _ in 0..m {
        if at == 0 {
            return;
        }
        let next = below[at];
        follow_parent(branch, parents, levels, slacks, at);
        at = next;
    }
}

// Hands `least` up to vertex v and those above it, `left` in all, until one has no more than that.
fn hand_up(parents: &[usize], slacks: &mut [i64], v: usize, left: usize, least: Time)
    requires by_index { (u : ℕ) → count u (way_up parents.now left v) ≢ 0 → (u < length parents.now) × (u < length slacks.old) }
    requires v_len { length (way_up parents.now left v) ≡ left }
    ensures { Falling (λ u. get_or slacks.old u (pos 0)) (way_up parents.now left v) → ((u : ℕ) → count u (way_up parents.now left v) ≤ 1) → Raised (way_up parents.now left v) least.0 slacks.old slacks.new }
{
    let mut at = v;
    for _ in 0..left {
        if Time::of(slacks[at]) <= least {
            return;
        }
        let up = parents[at];
        slacks[at] = least.attoseconds();
        at = up;
    }
}

// The new branch point b takes the place of v at its level, with the least slack that v will have; the new sink s hangs one level below.
fn hang_new(
    own: &[i64],
    branch: Time,
    levels: &mut [usize],
    slacks: &mut [i64],
    v: usize,
    s: usize,
    b: usize,
)
    requires s_in_bounds { (s < length own.now) × (v < length levels.old) × (s < length levels.old) × (b < length levels.old) × (v < length slacks.old) × (s < length slacks.old) × (b < length slacks.old) }
    requires v_bound { (get_or levels.old v 0 ≤ edge_limit) × Within time_reach (get_or slacks.old v (pos 0)) × Within time_reach (get_or own.now s (pos 0)) × Within term_reach branch.0 }
    ensures levels { levels.new ≡ set (set levels.old s (get_or levels.old v 0 + 1)) b (get_or levels.old v 0) }
    ensures slacks { slacks.new ≡ set (set slacks.old s (get_or own.now s (pos 0) -ℤ branch.0 *ℤ pos (get_or levels.old v 0))) b (get_or slacks.old v (pos 0) -ℤ branch.0) }
{
    let level = levels[v];
    let deeper = level + 1;
    let least = Time::of(slacks[v]) - branch;
    levels[s] = deeper;
    slacks[s] = (Time::of(own[s]) - branch * level as u64).attoseconds();
    levels[b] = level;
    slacks[b] = least.attoseconds();
}

// Vertex v and all under it become one level deeper. A sink has none under it.
fn lower(
    branch: Time,
    n: usize,
    parents: &[usize],
    below: &[usize],
    m: usize,
    v: usize,
    levels: &mut [usize],
    slacks: &mut [i64],
)
    requires by_index { (us : List ℕ) × (j : ℕ) × (D : ℕ → ℕ) × Chained m us below.now × (j < m) × (get_or us j 0 ≡ v) × DeepensUnder parents.now us n m j levels.old D × ((h : ℕ) → h < m → get_or levels.old (get_or us h 0) 0 ≤ edge_limit) × ((h : ℕ) → h < m → Within time_reach (get_or slacks.old (get_or us h 0) (pos 0))) × ((h : ℕ) → h < m → (get_or us h 0 < length parents.now) × (get_or us h 0 < length below.now) × (get_or us h 0 < length levels.old) × (get_or parents.now (get_or us h 0) 0 < length levels.old) × (get_or us h 0 < length slacks.old)) }
    requires within { Within time_reach branch.0 }
    ensures { (us : List ℕ) (j : ℕ) (D : ℕ → ℕ) → Chained m us below.now → j < m → get_or us j 0 ≡ v → DeepensUnder parents.now us n m j levels.old D → Lowered us m D branch.0 levels.old slacks.old 0 levels.new slacks.new }
{
    levels[v] = levels[v] + 1;
    slacks[v] = (Time::of(slacks[v]) - branch).attoseconds();
    if n < v {
        lower_below(branch, parents, below, m, v, levels, slacks);
    }
}

// The worst slack at the root's place, where the least slack under some edge has become `least`.
fn worst_with(slacks: &mut [i64], least: Time)
    requires { 0 < length slacks.old }
    ensures { slacks.new ≡ set slacks.old 0 (min_ℤ (get_or slacks.old 0 (pos 0)) least.0) }
{
    slacks[0] = Time::of(slacks[0]).min(least).attoseconds();
}

// Insertion k + 1 splits the edge to v for sink s: the numbers of the enlarged tree are gathered. `parents` and `below` are those from before the split.
pub fn regather(
    branch: Time,
    n: usize,
    k: usize,
    own: &[i64],
    parents: &[usize],
    below: &[usize],
    levels: &mut [usize],
    slacks: &mut [i64],
    v: usize,
    s: usize,
)
    requires ready { (N : Net) × (Ready N branch.0 n own.now × HoldsSoFar N k parents.now below.now levels.old slacks.old × (s ≡ next_sink N k) × InTree N k v) }
    requires k_bound { (suc k < n) × (2 * n ≤ length parents.now) × (2 * n ≤ length below.now) × (2 * n ≤ length levels.old) × (2 * n ≤ length slacks.old) }
    ensures leveled { (N : Net) → Ready N branch.0 n own.now → HoldsSoFar N k parents.now below.now levels.old slacks.old → s ≡ next_sink N k → SplitsNext N k v → Leveled N (suc k) levels.new }
    ensures gathered { (N : Net) → Ready N branch.0 n own.now → HoldsSoFar N k parents.now below.now levels.old slacks.old → s ≡ next_sink N k → SplitsNext N k v → Gathered N (suc k) slacks.new }
{
    let left = levels[v] - 1;
    let least = Time::of(slacks[v]) - branch;
    hang_new(own, branch, levels, slacks, v, s, n + k + 1);
    lower(branch, n, parents, below, 2 * k + 1, v, levels, slacks);
    hand_up(parents, slacks, parents[v], left, least);
    worst_with(slacks, least);
}
