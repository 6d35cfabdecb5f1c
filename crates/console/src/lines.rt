// The lines of the answers: a refusal's, and the measures.
ghost use Rattle.std.specs.Prelude.{◌+◌, ◌≤◌, ◌++◌, length};
ghost use Rattle.quantities.specs.Ranges.{Within};
ghost use Rattle.tree.specs.Limits.{slack_limit, wire_limit};
ghost use Rattle.formats.specs.Decimal.{show_nat};
ghost use Rattle.formats.specs.Inner.Writing.{Puts};
ghost use Rattle.formats.specs.Refusals.{told};
ghost use Rattle.console.specs.Printing.{refusal_text, measures_text, answer_room};

use formats::refusal::Refusal;
use formats::write::{put_bytes, put_line, put_natural};
use operations::answers::Judged;

// The digits of `n`, and the bytes `stop` after them.
fn put_natural_then(out: &mut [u8], at: usize, n: u64, stop: &[u8]) -> usize
    requires { at + length (show_nat n ++ stop.now) ≤ length out.old }
    ensures { Puts out.old at (show_nat n ++ stop.now) result out.new }
{
    let next = put_natural(out, at, n);
    put_bytes(out, next, stop)
}

// It is no `put_line`: a line's number may be past i64.
fn put_told(out: &mut [u8], number: u8, text: u8, line: usize) -> usize
    requires { answer_room ≤ length out.old }
    ensures { Puts out.old 0 (refusal_text (record { number = number; text = text; line = line })) result out.new }
{
    let first = put_bytes(out, 0, b"refused=");
    let second = put_natural_then(out, first, number as u64, b",");
    let third = put_natural_then(out, second, text as u64, b",");
    put_natural_then(out, third, line as u64, b"\n")
}

// The line `refused=N,T,L` goes to the start of `out`.
pub fn put_refusal(out: &mut [u8], refusal: Refusal) -> usize
    requires { answer_room ≤ length out.old }
    ensures { Puts out.old 0 (refusal_text (told refusal)) result out.new }
{
    let told = refusal.told();
    put_told(out, told.number, told.text, told.line)
}

// The lines `slack=W`, `wire=L` and `best=B` go to the start of `out`.
pub fn put_measures(out: &mut [u8], judged: Judged) -> usize
    requires within { Within slack_limit judged.slack.0 × (judged.wire.0 ≤ wire_limit) × Within slack_limit judged.best.0 }
    requires answer_room_in_bounds { answer_room ≤ length out.old }
    ensures { Puts out.old 0 (measures_text (record { slack = judged.slack.0; wire = judged.wire.0; best = judged.best.0 })) result out.new }
{
    let first = put_line(out, 0, b"slack=", [judged.slack.attoseconds()]);
    let second = put_line(out, first, b"wire=", [judged.wire.nanometres() as i64]);
    put_line(out, second, b"best=", [judged.best.attoseconds()])
}
