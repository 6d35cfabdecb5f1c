// Plan: a net in, the listing of its planned tree out.
ghost use Rattle.std.specs.Prelude.{◌≡◌, ◌+◌, ◌*◌, ◌≤◌, ◌<◌, length};
ghost use Rattle.tree.specs.Limits.{sink_limit};
ghost use Rattle.formats.specs.Inner.Readers.{HeadHeld};
ghost use Rattle.operations.specs.Answers.{plan_of, plan_output, plan_answer};

use formats::read_net::NetHead;
use formats::refusal::Refusal;
use operations::answers::Planned;
use operations::emit::emit;
use operations::planner::Planner;
use reading::read_net::{read_head, read_rest};
use tree::limits::SINK_LIMIT;
use writing::listing_view::ListingView;

// The places for the vertices of a net of any number of sinks, for the root and the sinks alone, and for the children of the vertices.
const VERTICES: usize = 2 * SINK_LIMIT as usize;

const PINS: usize = SINK_LIMIT as usize + 1;

const CHILDREN: usize = 4 * SINK_LIMIT as usize;

// The plan of a net whose head was read, in arrays that have room for its vertices and their children. The weights, which it ignores, are read into `own`.
fn plan_within<const PLACES: usize, const SINKS: usize, const TWICE: usize>(
    head: NetHead,
    out: &mut [u8],
) -> Result<Planned, Refusal>
    requires head { HeadHeld sink_limit head.sinks.text.now head }
    requires room { (head.n < SINKS) × (head.n < PLACES) × (2 * head.n ≤ PLACES) × (4 * head.n ≤ TWICE) }
    requires fits { (PLACES ≤ 2 * sink_limit) × (SINKS ≤ sink_limit + 1) × (TWICE ≤ 4 * sink_limit) }
    ensures answer { result ≡ plan_answer (plan_of head.entry.sinks.text.now (length out.old)) }
    ensures output { out.new ≡ plan_output head.entry.sinks.text.now out.old }
{
    let n = head.n;
    let header = head.header;
    let mut xs = [0i64; PLACES];
    let mut ys = [0i64; PLACES];
    let mut required = [0i64; SINKS];
    let mut own = [0i64; SINKS];
    read_rest(head, &mut xs, &mut ys, &mut required, &mut own)?;
    let mut parents = [0usize; PLACES];
    let mut slacks = [0i64; PLACES];
    let mut room = [0usize; TWICE];
    let mut levels = [0usize; PLACES];
    let mut below = [0usize; PLACES];
    let measures = first_tree::plan::plan(
        header,
        n,
        &mut xs,
        &mut ys,
        &required,
        &mut parents,
        &mut own,
        &mut slacks,
        &mut room,
        &mut levels,
        &mut below,
    );
    let listing = ListingView {
        slack: measures.slack,
        wire: measures.wire,
        n,
        parents: &parents,
        xs: &xs,
        ys: &ys,
    };
    if listing.slack < header.need {
        return Err(Refusal::Unreachable);
    }
    emit(out, listing)
}

// Any bytes and any output get an answer; a refusal leaves the output as it was. A small net has small arrays, which are soon cleared.
pub fn plan(net: &[u8], out: &mut [u8]) -> Result<Planned, Refusal>
    ensures answer { result ≡ plan_answer (plan_of net.now (length out.old)) }
    ensures output { out.new ≡ plan_output net.now out.old }
{
    let head = read_head(net)?;
    if head.n <= 16 {
        plan_within::<32, 17, 64>(head, out)
    } else if head.n <= 64 {
        plan_within::<128, 65, 256>(head, out)
    } else {
        plan_within::<VERTICES, PINS, CHILDREN>(head, out)
    }
}

// The first plan, as a plan among the others.
pub struct FirstPlan;

impl Planner for FirstPlan {
    ghost answers = { plan_of };

    fn plan(net: &[u8], out: &mut [u8]) -> Result<Planned, Refusal> {
        plan(net, out)
    }
}
