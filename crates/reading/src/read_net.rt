// Reads a net text into arrays, or finds what is wrong with it first. What is done for each line is inlined (formats, scan).
ghost use Rattle.std.specs.Prelude.{◌≡◌, ltb};
ghost use Rattle.quantities.specs.Distance.{distance};
ghost use Rattle.quantities.specs.Ranges.{PointWithin};
ghost use Rattle.tree.specs.declared.header.Header.{Header};
ghost use Rattle.tree.specs.Limits.{position_limit, sink_limit};
ghost use Rattle.formats.specs.Limits.{pin_limit};
ghost use Rattle.formats.specs.Inner.Readers.{ahead, AtSinks, HasPlace, NetHeadSays, after_head, net_outcome};
ghost use Rattle.reading.specs.Inner.Sinks.{AtSinkLine, SinkSays};

use formats::limits::{NET_LENGTH_LIMIT, PIN_LIMIT};
use formats::ranges::{around, up_to};
use formats::read_net::NetHead;
use formats::reader::LineReader;
use formats::refusal::{Refusal, Text};
use quantities::length::Length;
use quantities::metal_pair::MetalPair;
use quantities::point::{Point, distance};
use quantities::time::Time;
use quantities::wire_factor::WireFactor;
use tree::header::Header;
use tree::limits::{
    BRANCH_LIMIT, NEED_LIMIT, POSITION_LIMIT, REQUIRED_LIMIT, SINK_LIMIT, WEIGHT_LIMIT,
    WIRE_FACTOR_LIMIT,
};

// The head of a text: its length, then its first five lines.
pub fn read_head<'a>(text: &'a [u8]) -> Result<NetHead<'a>, Refusal>
    ensures { NetHeadSays text.now result }
{
    if NET_LENGTH_LIMIT < text.len() {
        return Err(Refusal::TooLong { text: Text::InNet });
    }
    let mut lines = LineReader::new(Text::InNet, text);
    let [x, y] = lines.numbers(b"root=", [around(POSITION_LIMIT), around(POSITION_LIMIT)])?;
    let branch = lines.number(b"branch=", up_to(BRANCH_LIMIT))?;
    let [horizontal, vertical] = lines.numbers(
        b"wire=",
        [up_to(WIRE_FACTOR_LIMIT), up_to(WIRE_FACTOR_LIMIT)],
    )?;
    let need = lines.number(b"need=", around(NEED_LIMIT))?;
    let count = lines.number(b"sinks=", up_to(SINK_LIMIT))?;
    let wire = MetalPair {
        horizontal: WireFactor::of(horizontal as u64),
        vertical: WireFactor::of(vertical as u64),
    };
    Ok(NetHead {
        header: Header {
            branch: Time::of(branch),
            wire,
            need: Time::of(need),
        },
        root: Point { x, y },
        n: count as usize,
        sinks: lines,
    })
}

// Whether a pin stands farther from the root than the pin limit.
fn is_far(root: Point, pin: Point) -> bool
    requires { PointWithin position_limit root × PointWithin position_limit pin }
    ensures { result ≡ ltb pin_limit (distance root pin) }
{
    Length::of(PIN_LIMIT) < distance(root, pin)
}

// The line of sink s, into the place s of the arrays.
#[inline(always)]
fn read_sink(
    lines: &mut LineReader,
    root: Point,
    s: usize,
    xs: &mut [i64],
    ys: &mut [i64],
    required: &mut [i64],
    weights: &mut [i64],
) -> Result<(), Refusal>
    requires { AtSinkLine lines.old × PointWithin position_limit root × HasPlace s xs.old ys.old required.old weights.old }
    ensures { SinkSays root lines.old s xs.old ys.old required.old weights.old result lines.new xs.new ys.new required.new weights.new }
{
    let line = lines.line;
    let ranges = [
        around(POSITION_LIMIT),
        around(POSITION_LIMIT),
        around(REQUIRED_LIMIT),
        up_to(WEIGHT_LIMIT),
    ];
    let [x, y, arrival, weight] = lines.numbers(b"sink=", ranges)?;
    if is_far(root, Point { x, y }) {
        return Err(Refusal::FarPin { line });
    }
    xs[s] = x;
    ys[s] = y;
    required[s] = arrival;
    weights[s] = weight;
    Ok(())
}

// The rest of a net text, whose head was read. The root and the sinks go to the places 0 to n of `xs` and `ys`, the required arrivals and the weights to those of `required` and `weights`.
pub fn read_rest(
    head: NetHead,
    xs: &mut [i64],
    ys: &mut [i64],
    required: &mut [i64],
    weights: &mut [i64],
) -> Result<(), Refusal>
    requires { AtSinks sink_limit head × HasPlace head.n xs.old ys.old required.old weights.old }
    ensures { (h : Header) → after_head h head.entry.root head.entry.n (ahead head.entry.sinks) ≡ net_outcome h head.entry.n result xs.new ys.new required.new weights.new }
{
    xs[0] = head.root.x;
    ys[0] = head.root.y;
    let mut lines = head.sinks;
    for s in 1..head.n + 1 {
        read_sink(&mut lines, head.root, s, xs, ys, required, weights)?;
    }
    lines.end()
}
