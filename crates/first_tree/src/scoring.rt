// What the worst slack becomes where an edge is split, from the gathered numbers. An edge goes by its lower end.
ghost use Rattle.std.specs.Prelude.{◌≡◌, ℕ, suc, ◌≤◌, ◌<◌, get_or, pos, ◌-ℤ◌};
ghost use Rattle.std.specs.Int.Signed.{lt_z};
ghost use Rattle.quantities.specs.Ranges.{Within};
ghost use Rattle.quantities.specs.Inner.Reach.{time_reach};
ghost use Rattle.tree.specs.Net.{Net, size};
ghost use Rattle.tree.specs.SmallestSlack.{InTree, Gathered, score_of, worst_with};
ghost use Rattle.first_tree.specs.Inner.Places.{CanScore};

use quantities::time::Time;

// The least slack under each vertex, the worst slack at the root's place, and what a branch point costs.
#[derive(Clone, Copy)]
pub struct Scoring<'a> {
    pub slacks: &'a [i64],
    pub branch: Time,
    ghost cost: { Within time_reach branch.0 },
}

impl Scoring<'_> {
    // What the worst slack becomes if the edge to v is split: the new sink is never worse off than the worst under v.
    pub fn score_of(self, v: usize) -> Time
        requires { CanScore self.slacks.now v }
        ensures number { result.0 ≡ score_of self.entry.branch.0 self.entry.slacks.now v }
        ensures worst { (N : Net) (j : ℕ) → 1 ≤ N.branch → self.entry.branch.0 ≡ pos N.branch → suc j < size N → Gathered N j self.entry.slacks.now → InTree N j v → result.0 ≡ worst_with N j v }
    {
        let worst = Time::of(self.slacks[0]);
        let under = Time::of(self.slacks[v]);
        let room = under - self.branch;
        worst.min(room)
    }

    // Whether less than `score` would be left under v if the edge to v is split.
    pub fn lacks_room(self, v: usize, score: Time) -> bool
        requires { CanScore self.slacks.now v }
        ensures { result ≡ lt_z (get_or self.entry.slacks.now v (pos 0) -ℤ self.entry.branch.0) score.0 }
    {
        (Time::of(self.slacks[v]) - self.branch) < score
    }

    // Whether the edge to v scores less than `least`.
    pub fn scores_less(self, v: usize, least: Time) -> bool
        requires { CanScore self.slacks.now v }
        ensures { result ≡ lt_z (score_of self.entry.branch.0 self.entry.slacks.now v) least.0 }
    {
        self.score_of(v) < least
    }
}
