// How long a number and a line are, without writing them.
ghost use Rattle.std.specs.Prelude.{◌≡◌, ◌+◌, ◌*◌, ◌≤◌, ◌<◌, length};
ghost use Rattle.std.specs.List.{All};
ghost use Rattle.formats.specs.Decimal.{show_nat, show};
ghost use Rattle.formats.specs.Line.{line_text};
ghost use Rattle.formats.specs.Inner.Writing.{Writable};

// The digits of a number that has four at most.
fn few_digits(n: u64) -> usize
    requires { n < 10_000 }
    ensures { result ≡ length (show_nat n) }
{
    if n < 10 {
        return 1;
    }
    if n < 100 {
        return 2;
    }
    if n < 1_000 {
        return 3;
    }
    4
}

// A while: it divides until four digits are left. They go four at a time, so a vertex costs no division, and a coordinate one.
fn natural_length(n: u64) -> usize
    ensures { result ≡ length (show_nat n) }
{
    let mut left = n;
    let mut counted = 0;
    while left >= 10_000 {
        left = left / 10_000;
        counted += 4;
    }
    counted + few_digits(left)
}

fn number_length(z: i64) -> usize
    ensures value { result ≡ length (show z) }
    ensures few { result ≤ 21 }
{
    let digits = natural_length(z.unsigned_abs());
    if z < 0 { digits + 1 } else { digits }
}

// A line of `key` and the numbers, each with a comma or the end byte after it. No line has more than four.
pub fn line_length<const K: usize>(key: &[u8], values: [i64; K]) -> usize
    requires count { (1 ≤ K) × (K ≤ 4) }
    requires writable { All Writable values }
    ensures value { result ≡ length (line_text key.now values.entry) }
    ensures short { result ≤ length key.now + 18 * K }
{
    let numbers: usize = values.iter().map(|value| number_length(*value) + 1).sum();
    key.len() + numbers
}
