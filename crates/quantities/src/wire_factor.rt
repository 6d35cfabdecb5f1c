// A wire factor, in attoseconds per nanometre: "A length becomes a time only by multiplication with the wire factor."
ghost use Rattle.std.specs.Prelude.{◌≡◌, ◌*◌, ◌≤◌, pos};
ghost use Rattle.quantities.specs.Delay.{length_delay};
ghost use Rattle.quantities.specs.Ranges.{FactorWithin};
ghost use Rattle.quantities.specs.Inner.Reach.{factor_reach, coordinate_reach};

use crate::length::Length;
use crate::time::Time;

#[derive(Clone, Copy, Debug, PartialEq, Eq)]
pub struct WireFactor(u64);

impl WireFactor {
    pub fn of(attoseconds_per_nanometre: u64) -> Self
        ensures { result.0 ≡ attoseconds_per_nanometre }
    {
        WireFactor(attoseconds_per_nanometre)
    }

    // The factor's number, for what goes out.
    pub fn attoseconds_per_nanometre(self) -> u64
        ensures { result ≡ self.0 }
    {
        self.0
    }

    // The delay of so much wire in this factor's direction.
    pub fn delay(self, length: Length) -> Time
        requires { FactorWithin factor_reach self × (length.0 ≤ 2 * coordinate_reach) }
        ensures { result.0 ≡ pos (length_delay self length.0) }
    {
        let product = self.0 * length.nanometres();
        Time::of(product as i64)
    }
}
