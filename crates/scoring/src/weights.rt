// Alpha and beta as two binary64 weights, their products and the score by them. Every number on the way is a whole number of 1024ths below 2^53, so that nothing is rounded.
ghost use Rattle.std.specs.Prelude.{◌≡◌, ◌≤◌, ℤ, pos, ◌*ℤ◌};
ghost use Rattle.tree.specs.Limits.{wire_limit};
ghost use Rattle.scoring.specs.Limits.{parts, FromZero};
ghost use Rattle.scoring.specs.Binary64.{of1024ths};
ghost use Rattle.scoring.specs.Exact.{score1024ths, gain, loss};
ghost use Rattle.scoring.specs.Inner.Weighing.{Weighs, Weighed, Scorable, ExactProduct};

use crate::limits::PARTS;
use quantities::length::Length;
use quantities::time::Time;

#[derive(Clone, Copy)]
pub struct Weights {
    alpha: f64,
    beta: f64,
}

impl Weights {
    // A/1024 and B/1024.
    pub fn of(alpha_1024ths: i64, beta_1024ths: i64) -> Self
        requires { FromZero parts alpha_1024ths × FromZero parts beta_1024ths }
        ensures { Weighs result alpha_1024ths beta_1024ths }
    {
        let one = PARTS as f64;
        let a = alpha_1024ths as f64;
        let b = beta_1024ths as f64;
        Weights {
            alpha: a / one,
            beta: b / one,
        }
    }

    // What a slack brings in.
    pub fn gain(self, slack: Time) -> f64
        requires { Weighed self × Scorable slack.0 }
        ensures { (A B : ℤ) → Weighs self A B → ExactProduct result (gain A slack.0) (A *ℤ slack.0) }
    {
        let m = slack.attoseconds() as f64;
        self.alpha * m
    }

    // What a wire costs.
    pub fn loss(self, wire: Length) -> f64
        requires { Weighed self × (wire.0 ≤ wire_limit) }
        ensures { (A B : ℤ) → Weighs self A B → ExactProduct result (loss B wire.0) (B *ℤ pos wire.0) }
    {
        let l = wire.nanometres() as f64;
        self.beta * l
    }

    // The score. The sum with plus zero makes a minus zero plus zero, and changes nothing else.
    pub fn score(self, slack: Time, wire: Length) -> f64
        requires { Weighed self × Scorable slack.0 × (wire.0 ≤ wire_limit) }
        ensures { (A B : ℤ) → Weighs self A B → result ≡ of1024ths (score1024ths A B slack.0 wire.0) }
    {
        let difference = self.gain(slack) - self.loss(wire);
        difference + 0.0
    }
}
