// The writer: numbers and lines put into a text at a position. Each function answers where what it put ends.
ghost use Rattle.std.specs.Prelude.{◌≡◌, [], ◌∷◌, ◌+◌, ◌≤◌, ◌<◌, length};
ghost use Rattle.std.specs.List.{All};
ghost use Rattle.formats.specs.Decimal.{show_nat, show};
ghost use Rattle.formats.specs.Line.{line_text};
ghost use Rattle.formats.specs.Inner.Writing.{Puts, Writable, one_then};

use crate::bytes::{COMMA, END, MINUS};

fn put_byte(out: &mut [u8], at: usize, b: u8) -> usize
    requires { at < length out.old }
    ensures { Puts out.old at (b ∷ []) result out.new }
{
    out[at] = b;
    at + 1
}

pub fn put_bytes(out: &mut [u8], at: usize, s: &[u8]) -> usize
    requires { at + length s.now ≤ length out.old }
    ensures { Puts out.old at s.now result out.new }
{
    let end = at + s.len();
    out[at..end].copy_from_slice(s);
    end
}

// The digits of `n`.
pub fn put_natural(out: &mut [u8], at: usize, n: u64) -> usize
    requires { at + length (show_nat n) ≤ length out.old }
    ensures { Puts out.old at (show_nat n) result out.new }
{
    if n < 10 {
        return put_byte(out, at, b'0' + n as u8);
    }
    let next = put_natural(out, at, n / 10);
    put_byte(out, next, b'0' + (n % 10) as u8)
}

// The spelling of `z`.
pub fn put_number(out: &mut [u8], at: usize, z: i64) -> usize
    requires { at + length (show z) ≤ length out.old }
    ensures { Puts out.old at (show z) result out.new }
{
    let size = z.unsigned_abs();
    if z < 0 {
        let next = put_byte(out, at, MINUS);
        return put_natural(out, next, size);
    }
    put_natural(out, at, size)
}

// A number, and the byte `stop` after it.
fn put_one_then(out: &mut [u8], at: usize, a: i64, stop: u8) -> usize
    requires { at + length (one_then a stop) ≤ length out.old }
    ensures { Puts out.old at (one_then a stop) result out.new }
{
    let next = put_number(out, at, a);
    put_byte(out, next, stop)
}

// A line of `key` and the numbers: a comma after each but the last, which the end byte follows.
pub fn put_line<const K: usize>(out: &mut [u8], at: usize, key: &[u8], values: [i64; K]) -> usize
    requires some { 1 ≤ K }
    requires writable { All Writable values }
    requires room { at + length (line_text key.now values) ≤ length out.old }
    ensures { Puts out.old at (line_text key.now values.entry) result out.new }
{
    let mut next = put_bytes(out, at, key);
    for k in 0..K {
        let stop = if k + 1 < K { COMMA } else { END };
        next = put_one_then(out, next, values[k], stop);
    }
    next
}
