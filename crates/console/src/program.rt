// A plan's program: a net is read to its end, its plan or the refusal is printed.
ghost use Rattle.std.specs.Prelude.{IfSome, take, suc};
ghost use Rattle.formats.specs.Limits.{net_length_limit, listing_length_limit};
ghost use Rattle.console.specs.Printing.{plan_printed};
ghost use Rattle.std.specs.Io.KnownBytes.{Appends};

use crate::answer::{COMPLAINT_LENGTH, print_plan};
use crate::stream::{read_text, write_out};
use formats::limits::{LISTING_LENGTH_LIMIT, NET_LENGTH_LIMIT};
use operations::planner::Planner;
use std::io::{Read, Write};

// The answer to a net that was read goes to `out`, a refusal in words to `err`. What is given is how many bytes went to `out`, as the system tells. It is no part
// of its caller, so that its buffers take no stack where the net could not be read.
#[inline(never)]
fn answer_net<P: Planner, O: Write, E: Write>(net: &[u8], out: &mut O, err: &mut E) -> usize
    ensures { Appends (O.contents out.old) (O.contents out.new) (take result (plan_printed (P.answers net.now listing_length_limit))) }
{
    let mut answer = [0u8; LISTING_LENGTH_LIMIT];
    let mut complaint = [0u8; COMPLAINT_LENGTH];
    let lengths = print_plan::<P>(net, b"standard input", &mut answer, &mut complaint);
    write_out(
        out,
        err,
        &answer[..lengths.answer],
        &complaint[..lengths.complaint],
    )
}

// The net comes from `input`, the listing or the line of a refusal goes to `out`, a refusal in words to `err`. What is given is how many bytes went to `out`, as
// the system tells; none where the net could not be read.
pub fn run_plan<P: Planner, R: Read, O: Write, E: Write>(
    input: &mut R,
    out: &mut O,
    err: &mut E,
) -> usize
    ensures { IfSome (R.remaining input.old) (λ left. Appends (O.contents out.old) (O.contents out.new) (take result (plan_printed (P.answers (take (suc net_length_limit) left) listing_length_limit)))) }
{
    // One byte more than a net may have, so that a longer one is refused.
    let mut net = [0u8; NET_LENGTH_LIMIT + 1];
    let Some(bytes) = read_text(input, b"standard input", &mut net, err) else {
        return 0;
    };
    answer_net::<P, O, E>(&net[..bytes], out, err)
}
