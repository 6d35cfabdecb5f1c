// Lengths of wire, in nanometres.
ghost use Rattle.std.specs.Prelude.{◌≡◌, ◌+◌, ◌≤◌};
ghost use Rattle.quantities.specs.Inner.Reach.{length_reach};

use std::ops::Add;

#[derive(Clone, Copy, Debug, PartialEq, Eq, PartialOrd, Ord)]
pub struct Length(u64);

impl Length {
    // A length that was given as a number.
    pub fn of(nanometres: u64) -> Self
        ensures { result.0 ≡ nanometres }
    {
        Length(nanometres)
    }

    // The one way to a length's number: for the product with a wire factor and for what goes out. The gate lists every place that takes it.
    pub fn nanometres(self) -> u64
        ensures { result ≡ self.0 }
    {
        self.0
    }
}

impl Add for Length {
    type Output = Length;

    ghost can_add = { λ a b. (a.0 ≤ length_reach) × (b.0 ≤ length_reach) };

    ghost add_gives = { λ a b r. r.0 ≡ a.0 + b.0 };

    fn add(self, other: Length) -> Length {
        Length(self.0 + other.0)
    }
}
