// What the programs print, for every input: the answer for standard output, and a refusal in words for standard error.
ghost use Rattle.std.specs.Prelude.{◌+◌, ◌≤◌, length};
ghost use Rattle.formats.specs.Refusals.{told};
ghost use Rattle.operations.specs.Answers.{judge_of};
ghost use Rattle.console.specs.Words.{complaint};
ghost use Rattle.console.specs.Printing.{refusal_text, plan_printed, judge_printed, plan_complaint, judge_complaint, Prints, answer_room, complaint_room};

use crate::complain::put_complaint;
use crate::lines::{put_measures, put_refusal};
use formats::refusal::Refusal;
use judging::judge::judge;
use operations::planner::Planner;

// Room for every refusal and all measures, and for every complaint where no name has more than 128 bytes.
pub const ANSWER_LENGTH: usize = 128;

pub const COMPLAINT_LENGTH: usize = 256;

// How many bytes of the two buffers are the answer and the complaint.
#[derive(Clone, Copy, Debug, PartialEq, Eq)]
pub struct Lengths {
    pub answer: usize,
    pub complaint: usize,
}

// A refusal: its line goes to `out`, its words to `err`.
fn print_refusal(
    refusal: Refusal,
    net: &[u8],
    listing: &[u8],
    out: &mut [u8],
    err: &mut [u8],
) -> Lengths
    requires out { answer_room ≤ length out.old }
    requires err { (length net.now + complaint_room ≤ length err.old) × (length listing.now + complaint_room ≤ length err.old) }
    ensures answer { Prints out.old (refusal_text (told refusal)) result.answer out.new }
    ensures complaint { Prints err.old (complaint net.now listing.now refusal) result.complaint err.new }
{
    let answer = put_refusal(out, refusal);
    let complaint = put_complaint(err, net, listing, refusal);
    Lengths { answer, complaint }
}

// Plans a net. The answer goes to the start of `out`, which is also the room for the listing, the complaint to the start of `err`.
pub fn print_plan<P: Planner>(net: &[u8], name: &[u8], out: &mut [u8], err: &mut [u8]) -> Lengths
    requires out { answer_room ≤ length out.old }
    requires err { length name.now + complaint_room ≤ length err.old }
    ensures answer { Prints out.old (plan_printed (P.answers net.now (length out.old))) result.answer out.new }
    ensures complaint { Prints err.old (plan_complaint name.now (P.answers net.now (length out.old))) result.complaint err.new }
{
    match P::plan(net, out) {
        Ok(planned) => Lengths {
            answer: planned.bytes,
            complaint: 0,
        },
        Err(refusal) => print_refusal(refusal, name, b"", out, err),
    }
}

// Judges a listing. The answer goes to the start of `out`, the complaint to the start of `err`. It is no part of its caller, so that a text that could not be read
// costs no stack for it.
#[inline(never)]
pub fn print_judgement(
    net: &[u8],
    listing: &[u8],
    net_name: &[u8],
    listing_name: &[u8],
    out: &mut [u8],
    err: &mut [u8],
) -> Lengths
    requires out { answer_room ≤ length out.old }
    requires err { (length net_name.now + complaint_room ≤ length err.old) × (length listing_name.now + complaint_room ≤ length err.old) }
    ensures answer { Prints out.old (judge_printed (judge_of net.now listing.now)) result.answer out.new }
    ensures complaint { Prints err.old (judge_complaint net_name.now listing_name.now (judge_of net.now listing.now)) result.complaint err.new }
{
    match judge(net, listing) {
        Ok(judged) => Lengths {
            answer: put_measures(out, judged),
            complaint: 0,
        },
        Err(refusal) => print_refusal(refusal, net_name, listing_name, out, err),
    }
}
