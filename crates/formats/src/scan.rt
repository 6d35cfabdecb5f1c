// One scanner for every kind of line: a key, and numbers with commas between them and the end byte after the last.
// What hands the numbers of a line up is inlined, here and in the files above, so that they are not copied from one function to the next.
ghost use Rattle.std.specs.Prelude.{◌≡◌, ◌≤◌, ◌<◌, length, drop};
ghost use Rattle.formats.specs.Reading.Numbers.{natural, field};
ghost use Rattle.formats.specs.Reading.Rows.{number_then, row_in, begins, line_in};
ghost use Rattle.formats.specs.Inner.Scanning.{run_at, scanned_at, line_at};

use crate::bytes::{COMMA, END, MINUS, ZERO};
use crate::number::Number;

// A number, and where what follows it starts.
#[derive(Clone, Copy)]
pub struct Scanned {
    pub number: Number,
    pub next: usize,
}

// The digits at `from`, taken in one by one.
fn digits_at(text: &[u8], from: usize, neg: bool) -> Scanned
    requires { from ≤ length text.now }
    ensures { result ≡ run_at neg text.now from }
{
    let mut number = Number::new(neg);
    for i in from..text.len() {
        let b = text[i];
        if !b.is_ascii_digit() {
            return Scanned { number, next: i };
        }
        number = number.digit(b);
    }
    Scanned {
        number,
        next: text.len(),
    }
}

// The digits at `from`, where they spell a number: a first 0 stands alone and has no sign.
fn natural_at(text: &[u8], from: usize, neg: bool) -> Option<Scanned>
    requires { from ≤ length text.now }
    ensures { result ≡ scanned_at from (natural neg (drop from text.now)) }
{
    let run = digits_at(text, from, neg);
    if run.next == from {
        return None;
    }
    if text[from] == ZERO && (neg || run.next != from + 1) {
        return None;
    }
    Some(run)
}

// The number at `at`.
pub fn number_at(text: &[u8], at: usize) -> Option<Scanned>
    requires { at ≤ length text.now }
    ensures { result ≡ scanned_at at (field (drop at text.now)) }
{
    if at < text.len() && text[at] == MINUS {
        natural_at(text, at + 1, true)
    } else {
        natural_at(text, at, false)
    }
}

// The number at `at` with the byte `stop` after it; what follows starts after that byte.
fn number_then(text: &[u8], at: usize, stop: u8) -> Option<Scanned>
    requires { (at ≤ length text.now) × (0 < stop) }
    ensures { result ≡ scanned_at at (number_then stop (drop at text.now)) }
{
    let Scanned { number, next } = number_at(text, at)?;
    if next < text.len() && text[next] == stop {
        Some(Scanned {
            number,
            next: next + 1,
        })
    } else {
        None
    }
}

// The K numbers in a row at `at`, and where the next line starts.
#[inline(always)]
fn row_at<const K: usize>(text: &[u8], at: usize) -> Option<([Number; K], usize)>
    requires { (at ≤ length text.now) × (1 ≤ K) }
    ensures { result ≡ line_at at (row_in K (drop at text.now)) }
{
    let mut numbers = [Number::new(false); K];
    let mut here = at;
    for k in 0..K {
        let stop = if k + 1 < K { COMMA } else { END };
        let Scanned { number, next } = number_then(text, here, stop)?;
        numbers[k] = number;
        here = next;
    }
    Some((numbers, here))
}

// The line at `at` that is due there: `key` and K numbers, and where the next line starts.
#[inline(always)]
pub fn line_at<const K: usize>(text: &[u8], at: usize, key: &[u8]) -> Option<([Number; K], usize)>
    requires { (at ≤ length text.now) × (1 ≤ K) }
    ensures { result ≡ line_at at (line_in key.now K (drop at text.now)) }
{
    if !text[at..].starts_with(key) {
        return None;
    }
    row_at(text, at + key.len())
}
