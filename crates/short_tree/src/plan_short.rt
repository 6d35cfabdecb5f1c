// The second plan: a net in, the listing of its short tree out. It ignores need.
ghost use Rattle.std.specs.Prelude.{◌≡◌, ◌+◌, ◌*◌, ◌≤◌, ◌<◌, length};
ghost use Rattle.tree.specs.Limits.{sink_limit};
ghost use Rattle.formats.specs.Inner.Readers.{HeadHeld};
ghost use Rattle.operations.specs.Answers.{plan_answer};
ghost use Rattle.short_tree.specs.SecondPlan.{short_of, short_output};

use crate::make::make;
use formats::read_net::NetHead;
use formats::refusal::Refusal;
use operations::answers::Planned;
use operations::emit::emit;
use operations::planner::Planner;
use reading::read_net::{read_head, read_rest};
use tree::limits::SINK_LIMIT;
use writing::listing_view::ListingView;

// The places for the vertices of a net of any number of sinks, and for the root and the sinks alone.
const VERTICES: usize = 2 * SINK_LIMIT as usize;

const PINS: usize = SINK_LIMIT as usize + 1;

// The plan of a net whose head was read, in arrays that have room for its vertices. The weights, which it ignores, are read into `slacks`.
fn plan_within<const PLACES: usize, const SINKS: usize>(
    head: NetHead,
    out: &mut [u8],
) -> Result<Planned, Refusal>
    requires head { HeadHeld sink_limit head.sinks.text.now head }
    requires room { (head.n < SINKS) × (head.n < PLACES) × (2 * head.n ≤ PLACES) }
    requires fits { (PLACES ≤ 2 * sink_limit) × (SINKS ≤ sink_limit + 1) }
    ensures answer { result ≡ plan_answer (short_of head.entry.sinks.text.now (length out.old)) }
    ensures output { out.new ≡ short_output head.entry.sinks.text.now out.old }
{
    let n = head.n;
    let header = head.header;
    let mut xs = [0i64; PLACES];
    let mut ys = [0i64; PLACES];
    let mut required = [0i64; SINKS];
    let mut slacks = [0i64; PLACES];
    read_rest(head, &mut xs, &mut ys, &mut required, &mut slacks)?;
    let mut parents = [0usize; PLACES];
    let mut kept = [0usize; PLACES];
    let mut costs = [0u64; SINKS];
    let mut second = [0usize; PLACES];
    let mut queue = [0usize; PLACES];
    let measures = make(
        header,
        n,
        &mut xs,
        &mut ys,
        &required,
        &mut parents,
        &mut kept,
        &mut costs,
        &mut second,
        &mut queue,
        &mut slacks,
    );
    let listing = ListingView {
        slack: measures.slack,
        wire: measures.wire,
        n,
        parents: &parents,
        xs: &xs,
        ys: &ys,
    };
    emit(out, listing)
}

// Any bytes and any output get an answer; a refusal leaves the output as it was. A small net has small arrays, which are soon cleared.
pub fn plan_short(net: &[u8], out: &mut [u8]) -> Result<Planned, Refusal>
    ensures answer { result ≡ plan_answer (short_of net.now (length out.old)) }
    ensures output { out.new ≡ short_output net.now out.old }
{
    let head = read_head(net)?;
    if head.n <= 16 {
        plan_within::<32, 17>(head, out)
    } else if head.n <= 64 {
        plan_within::<128, 65>(head, out)
    } else {
        plan_within::<VERTICES, PINS>(head, out)
    }
}

// The short tree, as a plan among the others.
pub struct ShortTree;

impl Planner for ShortTree {
    ghost answers = { short_of };

    fn plan(net: &[u8], out: &mut [u8]) -> Result<Planned, Refusal> {
        plan_short(net, out)
    }
}
