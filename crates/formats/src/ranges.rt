// The ranges of numbers, as they are read. A number past every range is held at the cap, which is past every range too.
ghost use Rattle.std.specs.Prelude.{◌≡◌, ◌<◌, Some, None, cond, ℤ, List, map, length};
ghost use Rattle.formats.specs.Ranges.{around, up_to, from_zero};
ghost use Rattle.formats.specs.Reading.Lines.{inside, all_inside};
ghost use Rattle.formats.specs.Inner.Ranging.{Narrow, AllNarrow};
ghost use Rattle.formats.specs.Inner.Scanning.{held, magnitude_cap};

use crate::number::{MAGNITUDE_CAP, Number};

// Both ends are in.
#[derive(Clone, Copy, Debug, PartialEq, Eq)]
pub struct Range {
    pub from: i64,
    pub to: i64,
}

// From -limit to limit.
pub fn around(limit: u64) -> Range
    requires { limit < magnitude_cap }
    ensures { result ≡ around limit }
{
    let to = limit as i64;
    Range { from: -to, to }
}

// From 1 to limit.
pub fn up_to(limit: u64) -> Range
    requires { limit < magnitude_cap }
    ensures { result ≡ up_to limit }
{
    Range {
        from: 1,
        to: limit as i64,
    }
}

// From 0 to limit.
pub fn from_zero(limit: u64) -> Range
    requires { limit < magnitude_cap }
    ensures { result ≡ from_zero limit }
{
    Range {
        from: 0,
        to: limit as i64,
    }
}

// The number itself, where it is in the range.
#[inline(always)]
pub fn in_range(number: Number, range: Range) -> Option<i64>
    requires { Narrow range }
    ensures { (z : ℤ) → number ≡ held z → result ≡ cond (inside range z) (Some z) None }
{
    if MAGNITUDE_CAP <= number.mag {
        return None;
    }
    let z = number.value();
    if range.from <= z && z <= range.to {
        Some(z)
    } else {
        None
    }
}

// The numbers themselves, where each is in its range.
#[inline(always)]
pub fn in_ranges<const K: usize>(numbers: &[Number], ranges: [Range; K]) -> Option<[i64; K]>
    requires { AllNarrow ranges × (length numbers.now ≡ K) }
    ensures { (zs : List ℤ) → numbers.now ≡ map held zs → result ≡ cond (all_inside ranges.entry zs) (Some zs) None }
{
    let mut values = [0; K];
    for k in 0..K {
        values[k] = in_range(numbers[k], ranges[k])?;
    }
    Some(values)
}
