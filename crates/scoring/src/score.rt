// The router's score of a listing over its net, or a refusal: judge's, then 14.
ghost use Rattle.std.specs.Prelude.{◌≡◌, ◌≤◌};
ghost use Rattle.tree.specs.Limits.{wire_limit};
ghost use Rattle.scoring.specs.Limits.{cap_limit};
ghost use Rattle.scoring.specs.Scores.{is_from_zero, is_scored, scored, score_of, score_answer};

use crate::limits::{CAP_LIMIT, LATE_LIMIT, PARTS};
use crate::weights::Weights;
use formats::refusal::Refusal;
use judging::judge::judge_measures;
use quantities::time::Time;
use tree::measures::Measures;

fn is_from_zero(limit: u64, z: i64) -> bool
    requires { limit ≤ cap_limit }
    ensures { result ≡ is_from_zero limit z }
{
    0 <= z && z <= limit as i64
}

// Whether a score is given, of the lesser of slack and cap.
fn is_scored(alpha_1024ths: i64, beta_1024ths: i64, cap: i64, capped: Time) -> bool
    ensures { result ≡ is_scored alpha_1024ths beta_1024ths cap capped.0 }
{
    is_from_zero(PARTS, alpha_1024ths)
        && is_from_zero(PARTS, beta_1024ths)
        && is_from_zero(CAP_LIMIT, cap)
        && capped >= Time::of(-(LATE_LIMIT as i64))
}

// The score of a tree by its measures, or 14.
fn score_measures(
    alpha_1024ths: i64,
    beta_1024ths: i64,
    cap: i64,
    measures: Measures,
) -> Result<f64, Refusal>
    requires { measures.wire.0 ≤ wire_limit }
    ensures { result ≡ score_answer (scored alpha_1024ths beta_1024ths cap measures.slack.0 measures.wire.0) }
{
    let capped = measures.slack.min(Time::of(cap));
    if !is_scored(alpha_1024ths, beta_1024ths, cap, capped) {
        return Err(Refusal::NotScored);
    }
    let weights = Weights::of(alpha_1024ths, beta_1024ths);
    let score = weights.score(capped, measures.wire);
    Ok(score)
}

// Any two texts and any three numbers get an answer.
pub fn score(
    net: &[u8],
    listing: &[u8],
    alpha_1024ths: i64,
    beta_1024ths: i64,
    cap: i64,
) -> Result<f64, Refusal>
    ensures { result ≡ score_answer (score_of net.now listing.now alpha_1024ths beta_1024ths cap) }
{
    let measures = judge_measures(net, listing)?;
    score_measures(alpha_1024ths, beta_1024ths, cap, measures)
}
