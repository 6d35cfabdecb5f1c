// Times, in attoseconds: arrivals, delays and slacks. Which is earlier, and the least of two, are those of their numbers.
ghost use Rattle.std.specs.Prelude.{◌≡◌, ◌≤◌, pos, ◌+ℤ◌, ◌-ℤ◌, ◌*ℤ◌};
ghost use Rattle.quantities.specs.Ranges.{Within};
ghost use Rattle.quantities.specs.Inner.Reach.{time_reach, factor_reach, term_reach};

use std::ops::{Add, Mul, Sub};

#[derive(Clone, Copy, Debug, PartialEq, Eq, PartialOrd, Ord)]
pub struct Time(i64);

impl Time {
    // A time that was given as a number.
    pub fn of(attoseconds: i64) -> Self
        ensures { result.0 ≡ attoseconds }
    {
        Time(attoseconds)
    }

    pub fn attoseconds(self) -> i64
        ensures { result ≡ self.0 }
    {
        self.0
    }
}

impl Add for Time {
    type Output = Time;

    ghost can_add = { λ a b. Within time_reach a.0 × Within time_reach b.0 };

    ghost add_gives = { λ a b r. r.0 ≡ a.0 +ℤ b.0 };

    fn add(self, other: Time) -> Time {
        Time(self.0 + other.0)
    }
}

impl Sub for Time {
    type Output = Time;

    ghost can_sub = { λ a b. Within time_reach a.0 × Within time_reach b.0 };

    ghost sub_gives = { λ a b r. r.0 ≡ a.0 -ℤ b.0 };

    fn sub(self, other: Time) -> Time {
        Time(self.0 - other.0)
    }
}

// The time of so many delays like this one.
impl Mul<u64> for Time {
    type Output = Time;

    ghost can_mul = { λ a count. Within term_reach a.0 × (count ≤ factor_reach) };

    ghost mul_gives = { λ a count r. r.0 ≡ a.0 *ℤ pos count };

    fn mul(self, count: u64) -> Time {
        Time(self.0 * count as i64)
    }
}
