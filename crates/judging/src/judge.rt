// Judge: a net and a listing in, the listing's measures and the net's Kraft maximum out; and the measures alone, for calls that do not want the maximum.
ghost use Rattle.std.specs.Prelude.{◌≡◌, ◌+◌, ◌*◌, ◌≤◌, ◌<◌};
ghost use Rattle.tree.specs.Limits.{sink_limit};
ghost use Rattle.formats.specs.Inner.Readers.{HeadHeld};
ghost use Rattle.operations.specs.Answers.{judge_of, judge_answer};
ghost use Rattle.judging.specs.Inner.Measuring.{measures_answer};

use crate::kraft::kraft_maximum;
use formats::read_net::NetHead;
use formats::refusal::Refusal;
use operations::accept::accept_over;
use operations::answers::Judged;
use reading::read_net::read_head;
use tree::limits::SINK_LIMIT;
use tree::measures::Measures;
use tree::view::NetView;

// The places for the vertices of a net of any number of sinks, and for the root and the sinks alone.
const VERTICES: usize = 2 * SINK_LIMIT as usize;

const PINS: usize = SINK_LIMIT as usize + 1;

// The judgement of a listing over a net whose head was read, in arrays that have room for its vertices. The weights, which it ignores, are read into `own`.
fn judge_within<const PLACES: usize, const SINKS: usize>(
    head: NetHead,
    listing: &[u8],
) -> Result<Judged, Refusal>
    requires head { HeadHeld sink_limit head.sinks.text.now head }
    requires room { (head.n < SINKS) × (head.n < PLACES) × (2 * head.n ≤ PLACES) }
    requires fits { (PLACES ≤ 2 * sink_limit) × (SINKS ≤ sink_limit + 1) }
    ensures { result ≡ judge_answer (judge_of head.entry.sinks.text.now listing.now) }
{
    let header = head.header;
    let n = head.n;
    let mut xs = [0i64; PLACES];
    let mut ys = [0i64; PLACES];
    let mut required = [0i64; SINKS];
    let mut own = [0i64; SINKS];
    let mut parents = [0usize; PLACES];
    let mut first = [0usize; PLACES];
    let mut second = [0usize; PLACES];
    let mut queue = [0usize; PLACES];
    let mut slacks = [0i64; PLACES];
    let measures = accept_over(
        head,
        &mut xs,
        &mut ys,
        &mut required,
        &mut own,
        &mut parents,
        &mut first,
        &mut second,
        &mut queue,
        &mut slacks,
        listing,
    )?;
    let net = NetView {
        header,
        n,
        xs: &xs,
        ys: &ys,
        required: &required,
    };
    let best = kraft_maximum(net, &mut own, &mut slacks, &mut queue);
    Ok(Judged {
        slack: measures.slack,
        wire: measures.wire,
        best,
    })
}

// The measures of an accepted listing, in the same way.
fn measured_within<const PLACES: usize, const SINKS: usize>(
    head: NetHead,
    listing: &[u8],
) -> Result<Measures, Refusal>
    requires head { HeadHeld sink_limit head.sinks.text.now head }
    requires room { (head.n < SINKS) × (head.n < PLACES) × (2 * head.n ≤ PLACES) }
    requires fits { (PLACES ≤ 2 * sink_limit) × (SINKS ≤ sink_limit + 1) }
    ensures { result ≡ measures_answer (judge_of head.entry.sinks.text.now listing.now) }
{
    let mut xs = [0i64; PLACES];
    let mut ys = [0i64; PLACES];
    let mut required = [0i64; SINKS];
    let mut weights = [0i64; SINKS];
    let mut parents = [0usize; PLACES];
    let mut first = [0usize; PLACES];
    let mut second = [0usize; PLACES];
    let mut queue = [0usize; PLACES];
    let mut slacks = [0i64; PLACES];
    accept_over(
        head,
        &mut xs,
        &mut ys,
        &mut required,
        &mut weights,
        &mut parents,
        &mut first,
        &mut second,
        &mut queue,
        &mut slacks,
        listing,
    )
}

// The listing's measures and the net's Kraft maximum. A small net has small arrays, which are soon cleared.
pub fn judge(net: &[u8], listing: &[u8]) -> Result<Judged, Refusal>
    ensures { result ≡ judge_answer (judge_of net.now listing.now) }
{
    let head = read_head(net)?;
    if head.n <= 16 {
        judge_within::<32, 17>(head, listing)
    } else if head.n <= 64 {
        judge_within::<128, 65>(head, listing)
    } else {
        judge_within::<VERTICES, PINS>(head, listing)
    }
}

// The measures of a listing that judge accepts, or judge's refusal.
pub fn judge_measures(net: &[u8], listing: &[u8]) -> Result<Measures, Refusal>
    ensures { result ≡ measures_answer (judge_of net.now listing.now) }
{
    let head = read_head(net)?;
    if head.n <= 16 {
        measured_within::<32, 17>(head, listing)
    } else if head.n <= 64 {
        measured_within::<128, 65>(head, listing)
    } else {
        measured_within::<VERTICES, PINS>(head, listing)
    }
}
