// The library for callers in C and Rust: the plans, judge, the score and the deletion of a pin on lent bytes, each figure through a reference of its own. `repeater_tree_c` exports it.
#![tactic(auto)]

ghost use Rattle.std.specs.Prelude.{◌≡◌, length};
ghost use Rattle.formats.specs.Refusals.{told};
ghost use Rattle.operations.specs.Answers.{bytes_of, overwritten, plan_of, plan_output, plan_answer, plan_figures, judge_of, judge_answer, judge_figures};
ghost use Rattle.pin_deletion.specs.Deletions.{deletion_of, net_output, listing_output, deletion_answer, deletion_figures};
ghost use Rattle.scoring.specs.Scores.{score_of, score_answer, score_figures};
ghost use Rattle.short_tree.specs.SecondPlan.{short_of, short_output};
ghost use Rattle.weighted_tree.specs.ThirdPlan.{weighted_of, weighted_output};

use first_plan::plan::FirstPlan;
use formats::refusal::Refusal;
use judging::judge::judge;
use operations::planner::Planner;
use pin_deletion::delete_pin::delete_pin;
use short_tree::plan_short::ShortTree;
use weighted_tree::plan_weighted::WeightedTree;

// What is told of a refusal. Its number is returned.
fn refuse(refusal: Refusal, text: &mut u8, line: &mut usize) -> u8
    ensures { (record { number = result; text = text.new; line = line.new }) ≡ told refusal }
{
    let told = refusal.told();
    *text = told.text;
    *line = told.line;
    told.number
}

// The figures of what a plan answers, each through its reference. The number of the refusal is returned, 0 where nothing is refused.
fn plan_figures<P: Planner>(
    net: &[u8],
    out: &mut [u8],
    text: &mut u8,
    line: &mut usize,
    slack: &mut i64,
    wire: &mut u64,
    bytes: &mut usize,
) -> u8
    ensures figures { (record { number = result; text = text.new; line = line.new; slack = slack.new; wire = wire.new; bytes = bytes.new }) ≡ plan_figures (plan_answer (P.answers net.now (length out.old))) }
    ensures output { out.new ≡ overwritten (bytes_of (P.answers net.now (length out.old))) out.old }
{
    *text = 0;
    *line = 0;
    *slack = 0;
    *wire = 0;
    *bytes = 0;
    match P::plan(net, out) {
        Ok(planned) => {
            *slack = planned.slack.attoseconds();
            *wire = planned.wire.nanometres();
            *bytes = planned.bytes;
            0
        }
        Err(refusal) => refuse(refusal, text, line),
    }
}

// Plans a net.
pub fn repeater_tree_plan(
    net: &[u8],
    out: &mut [u8],
    text: &mut u8,
    line: &mut usize,
    slack: &mut i64,
    wire: &mut u64,
    bytes: &mut usize,
) -> u8
    ensures figures { (record { number = result; text = text.new; line = line.new; slack = slack.new; wire = wire.new; bytes = bytes.new }) ≡ plan_figures (plan_answer (plan_of net.now (length out.old))) }
    ensures output { out.new ≡ plan_output net.now out.old }
{
    plan_figures::<FirstPlan>(net, out, text, line, slack, wire, bytes)
}

// Plans the short tree of a net.
pub fn repeater_tree_plan_short(
    net: &[u8],
    out: &mut [u8],
    text: &mut u8,
    line: &mut usize,
    slack: &mut i64,
    wire: &mut u64,
    bytes: &mut usize,
) -> u8
    ensures figures { (record { number = result; text = text.new; line = line.new; slack = slack.new; wire = wire.new; bytes = bytes.new }) ≡ plan_figures (plan_answer (short_of net.now (length out.old))) }
    ensures output { out.new ≡ short_output net.now out.old }
{
    plan_figures::<ShortTree>(net, out, text, line, slack, wire, bytes)
}

// Plans the tree of a net by its switching weights.
pub fn repeater_tree_plan_weighted(
    net: &[u8],
    out: &mut [u8],
    text: &mut u8,
    line: &mut usize,
    slack: &mut i64,
    wire: &mut u64,
    bytes: &mut usize,
) -> u8
    ensures figures { (record { number = result; text = text.new; line = line.new; slack = slack.new; wire = wire.new; bytes = bytes.new }) ≡ plan_figures (plan_answer (weighted_of net.now (length out.old))) }
    ensures output { out.new ≡ weighted_output net.now out.old }
{
    plan_figures::<WeightedTree>(net, out, text, line, slack, wire, bytes)
}

// Judges a listing. The number of the refusal is returned, 0 where nothing is refused.
pub fn repeater_tree_judge(
    net: &[u8],
    listing: &[u8],
    text: &mut u8,
    line: &mut usize,
    slack: &mut i64,
    wire: &mut u64,
    best: &mut i64,
) -> u8
    ensures { (record { number = result; text = text.new; line = line.new; slack = slack.new; wire = wire.new; best = best.new }) ≡ judge_figures (judge_answer (judge_of net.now listing.now)) }
{
    *text = 0;
    *line = 0;
    *slack = 0;
    *wire = 0;
    *best = 0;
    match judge(net, listing) {
        Ok(judged) => {
            *slack = judged.slack.attoseconds();
            *wire = judged.wire.nanometres();
            *best = judged.best.attoseconds();
            0
        }
        Err(refusal) => refuse(refusal, text, line),
    }
}

// Scores a listing by the router's weights. The number of the refusal is returned, 0 where nothing is refused.
pub fn repeater_tree_score(
    net: &[u8],
    listing: &[u8],
    alpha_1024ths: i64,
    beta_1024ths: i64,
    cap: i64,
    text: &mut u8,
    line: &mut usize,
    score: &mut f64,
) -> u8
    ensures { (record { number = result; text = text.new; line = line.new; score = score.new }) ≡ score_figures (score_answer (score_of net.now listing.now alpha_1024ths beta_1024ths cap)) }
{
    *text = 0;
    *line = 0;
    *score = 0.0;
    match scoring::score::score(net, listing, alpha_1024ths, beta_1024ths, cap) {
        Ok(given) => {
            *score = given;
            0
        }
        Err(refusal) => refuse(refusal, text, line),
    }
}

// Deletes a pin from a net and from an accepted listing over it. The number of the refusal is returned, 0 where nothing is refused.
pub fn repeater_tree_delete_pin(
    net: &[u8],
    listing: &[u8],
    sink: usize,
    net_out: &mut [u8],
    listing_out: &mut [u8],
    text: &mut u8,
    line: &mut usize,
    net_bytes: &mut usize,
    listing_bytes: &mut usize,
) -> u8
    ensures figures { (record { number = result; text = text.new; line = line.new; net_bytes = net_bytes.new; listing_bytes = listing_bytes.new }) ≡ deletion_figures (deletion_answer (deletion_of net.now listing.now sink (length net_out.old) (length listing_out.old))) }
    ensures net { net_out.new ≡ net_output net.now listing.now sink net_out.old listing_out.old }
    ensures listing { listing_out.new ≡ listing_output net.now listing.now sink net_out.old listing_out.old }
{
    *text = 0;
    *line = 0;
    *net_bytes = 0;
    *listing_bytes = 0;
    match delete_pin(net, listing, sink, net_out, listing_out) {
        Ok(deleted) => {
            *net_bytes = deleted.net_bytes;
            *listing_bytes = deleted.listing_bytes;
            0
        }
        Err(refusal) => refuse(refusal, text, line),
    }
}
