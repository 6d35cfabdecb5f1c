// A number while it is read: "A number is read digit by digit, and no digit may push it past its type."
ghost use Rattle.std.specs.Prelude.{◌≡◌, ◌+◌, ◌*◌, ◌-◌, ◌≤◌, ◌<◌};
ghost use Rattle.formats.specs.Reading.Numbers.{signed};
ghost use Rattle.formats.specs.Inner.Scanning.{held_by, magnitude_cap};

// Every number of this magnitude or more is held as this one.
pub const MAGNITUDE_CAP: u64 = 1_000_000_000_000_000_000;

#[derive(Clone, Copy, Debug, PartialEq, Eq)]
pub struct Number {
    pub neg: bool,
    pub mag: u64,
}

impl Number {
    // No digit yet.
    pub fn new(neg: bool) -> Self
        ensures { result ≡ held_by neg 0 }
    {
        Number { neg, mag: 0 }
    }

    // The number with one digit more.
    pub fn digit(self, b: u8) -> Self
        requires { (48 ≤ b) × (b < 58) }
        ensures { result ≡ held_by self.neg (self.mag * 10 + (b - 48)) }
    {
        let neg = self.neg;
        if self.mag < MAGNITUDE_CAP {
            let mag = self.mag * 10 + u64::from(b - b'0');
            if mag < MAGNITUDE_CAP {
                return Number { neg, mag };
            }
        }
        Number {
            neg,
            mag: MAGNITUDE_CAP,
        }
    }

    // The number itself, where it is no larger than the largest that any range allows.
    pub fn value(self) -> i64
        requires { self.mag < magnitude_cap }
        ensures { result ≡ signed self.neg self.mag }
    {
        let z = self.mag as i64;
        if self.neg { -z } else { z }
    }
}
