// What every plan is: a net in, the listing of a tree out.
ghost use Rattle.std.specs.Prelude.{◌≡◌, List, ℕ, length};
ghost use Rattle.formats.specs.Outcome.{Outcome};
ghost use Rattle.operations.specs.Answers.{Written, bytes_of, overwritten, plan_answer};

use crate::answers::Planned;
use formats::refusal::Refusal;

pub trait Planner {
    // What it answers to the bytes of a net and the length of an output.
    ghost answers: { List ℕ → ℕ → Outcome Written };

    // Any bytes and any output get an answer; a refusal leaves the output as it was.
    fn plan(net: &[u8], out: &mut [u8]) -> Result<Planned, Refusal>
        ensures answer { result ≡ plan_answer (answers net.now (length out.old)) }
        ensures output { out.new ≡ overwritten (bytes_of (answers net.now (length out.old))) out.old };
}
