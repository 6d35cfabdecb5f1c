// Reads a tree listing into arrays, or finds what is wrong with it first. What is done for each line is inlined (formats, scan).
ghost use Rattle.std.specs.Prelude.{Ok, Err, cond, ◌&&◌, ◌≡◌, ℕ, suc, ◌+◌, ◌*◌, ◌-◌, ◌≤◌, ◌<◌, ℤ, pos, List, map, length, get_or};
ghost use Rattle.std.specs.Int.Signed.{le_z};
ghost use Rattle.tree.specs.Limits.{sink_limit};
ghost use Rattle.formats.specs.Reading.Listings.{is_sink, due_leaf, due_node, read_stated, read_tree, read_listing};
ghost use Rattle.formats.specs.Inner.Scanning.{held, magnitude_cap};
ghost use Rattle.formats.specs.Inner.Ranging.{AllNarrow};
ghost use Rattle.formats.specs.Inner.Readers.{ahead};
ghost use Rattle.formats.specs.declared.refusal.Refusal.TheVariants.{SinkParent};
ghost use Rattle.formats.specs.Inner.ListingReader.{HasVertices, parents_from, vertices_from, leaves_in, nodes_in, listing_outcome, SinksKept};
ghost use Rattle.reading.specs.Inner.Vertices.{AtLineOf, AtVertex, Says, stated_by, after_first, leaf_told, node_told, tree_outcome};

use formats::limits::LISTING_LENGTH_LIMIT;
use formats::number::Number;
use formats::ranges::{Range, around, from_zero, in_ranges, up_to};
use formats::reader::LineReader;
use formats::refusal::{Refusal, Text};
use quantities::length::Length;
use quantities::point::Point;
use quantities::time::Time;
use tree::limits::{POSITION_LIMIT, SINK_LIMIT, SLACK_LIMIT, WIRE_LIMIT};
use tree::measures::Measures;

// The first three lines.
fn read_stated(lines: &mut LineReader, n: usize) -> Result<Measures, Refusal>
    requires { AtLineOf 1 lines.old }
    ensures { Says (read_stated n (ahead lines.old)) stated_by 4 lines.old result lines.new }
{
    let slack = lines.number(b"slack=", around(SLACK_LIMIT))?;
    let wire = lines.number(b"wire=", from_zero(WIRE_LIMIT))?;
    let count = lines.number(b"sinks=", up_to(SINK_LIMIT))?;
    if count as usize != n {
        return Err(Refusal::OtherCount);
    }
    Ok(Measures {
        slack: Time::of(slack),
        wire: Length::of(wire as u64),
    })
}

// A vertex under the root: its parent, and where it stands.
#[derive(Clone, Copy)]
struct Vertex {
    parent: usize,
    point: Point,
}

// Whether a number is k.
#[inline(always)]
fn is_exactly(number: Number, k: usize) -> bool
    requires { k < magnitude_cap }
    ensures { (z : ℤ) → number ≡ held z → result ≡ (le_z z (pos k) && le_z (pos k) z) }
{
    !number.neg && number.mag == k as u64
}

fn is_sink(n: usize, v: usize) -> bool
    ensures { result ≡ is_sink n v }
{
    1 <= v && v <= n
}

// The parent that line `line` says: no sink.
#[inline(always)]
fn no_sink(parent: usize, n: usize, line: usize) -> Result<usize, Refusal>
    ensures { result ≡ cond (is_sink n parent) (Err (SinkParent line)) (Ok parent) }
{
    if is_sink(n, parent) {
        return Err(Refusal::SinkParent { line });
    }
    Ok(parent)
}

// The numbers after the first on line `line`, each in its range. The first is k.
#[inline(always)]
fn numbers_after<const K: usize>(
    numbers: &[Number],
    ranges: [Range; K],
    k: usize,
    line: usize,
) -> Result<[i64; K], Refusal>
    requires { (length numbers.now ≡ K + 1) × AllNarrow ranges × (k < magnitude_cap) }
    ensures { (zs : List ℤ) → numbers.now ≡ map held zs → result ≡ after_first line k ranges.entry zs }
{
    let text = Text::InListing;
    if !is_exactly(numbers[0], k) {
        return Err(Refusal::NotDue { text, line });
    }
    in_ranges(&numbers[1..], ranges).ok_or(Refusal::OutOfRange { text, line })
}

// The parent of leaf k, by its line, `leaf=k,P`.
#[inline(always)]
fn leaf_at(lines: &mut LineReader, n: usize, k: usize) -> Result<usize, Refusal>
    requires { AtVertex n k lines.old }
    ensures { Says (due_leaf n k (ahead lines.old)) leaf_told (k + 4) lines.old result lines.new }
{
    let line = lines.line;
    let numbers = lines.row::<2>(b"leaf=")?;
    let ranges = [from_zero((2 * n - 1) as u64)];
    let [parent] = numbers_after(&numbers, ranges, k, line)?;
    no_sink(parent as usize, n, line)
}

// Node k, by its line, `node=k,P,X,Y`.
#[inline(always)]
fn node_at(lines: &mut LineReader, n: usize, k: usize) -> Result<Vertex, Refusal>
    requires { AtVertex n k lines.old }
    ensures { Says (due_node n k (ahead lines.old)) node_told (k + 4) lines.old result lines.new }
{
    let line = lines.line;
    let numbers = lines.row::<4>(b"node=")?;
    let ranges = [
        from_zero((2 * n - 1) as u64),
        around(POSITION_LIMIT),
        around(POSITION_LIMIT),
    ];
    let [parent, x, y] = numbers_after(&numbers, ranges, k, line)?;
    let parent = no_sink(parent as usize, n, line)?;
    Ok(Vertex {
        parent,
        point: Point { x, y },
    })
}

// The lines of the leaves, 1 to n.
fn read_leaves(lines: &mut LineReader, n: usize, parents: &mut [usize]) -> Result<(), Refusal>
    requires { AtLineOf 4 lines.old × (1 ≤ n) × (n ≤ sink_limit) × (n < length parents.old) }
    ensures { Says (leaves_in n (ahead lines.old)) (λ _. parents_from parents.new 1 n) (n + 4) lines.old result lines.new }
{
    for k in 1..n + 1 {
        parents[k] = leaf_at(lines, n, k)?;
    }
    Ok(())
}

// The lines of the nodes, n+1 to 2n-1.
fn read_nodes(
    lines: &mut LineReader,
    n: usize,
    parents: &mut [usize],
    xs: &mut [i64],
    ys: &mut [i64],
) -> Result<(), Refusal>
    requires { AtLineOf (n + 4) lines.old × (1 ≤ n) × (n ≤ sink_limit) × HasVertices n parents.old xs.old ys.old }
    ensures read { Says (nodes_in n (ahead lines.old)) (λ _. vertices_from parents.new xs.new ys.new (suc n) (n - 1)) (2 * n + 3) lines.old result lines.new }
    ensures leaves { (v : ℕ) → v ≤ n → get_or parents.new v 0 ≡ get_or parents.old v 0 }
    ensures kept { SinksKept n xs.old ys.old xs.new ys.new }
{
    for k in n + 1..2 * n {
        let vertex = node_at(lines, n, k)?;
        parents[k] = vertex.parent;
        xs[k] = vertex.point.x;
        ys[k] = vertex.point.y;
    }
    Ok(())
}

// The lines of all vertices, after which nothing stands.
fn read_tree(
    lines: &mut LineReader,
    n: usize,
    parents: &mut [usize],
    xs: &mut [i64],
    ys: &mut [i64],
) -> Result<(), Refusal>
    requires { AtLineOf 4 lines.old × (1 ≤ n) × (n ≤ sink_limit) × HasVertices n parents.old xs.old ys.old }
    ensures read { read_tree n (ahead lines.old) ≡ tree_outcome n result parents.new xs.new ys.new }
    ensures kept { SinksKept n xs.old ys.old xs.new ys.new }
{
    read_leaves(lines, n, parents)?;
    read_nodes(lines, n, parents, xs, ys)?;
    lines.end()
}

// The listing of a net with n sinks. The parents go to the places 1 to 2n-1 of `parents`, the points to the places n+1 to 2n-1 of `xs` and `ys`.
pub fn read_listing(
    text: &[u8],
    n: usize,
    parents: &mut [usize],
    xs: &mut [i64],
    ys: &mut [i64],
) -> Result<Measures, Refusal>
    requires { (1 ≤ n) × (n ≤ sink_limit) × HasVertices n parents.old xs.old ys.old }
    ensures read { read_listing n text.now ≡ listing_outcome result n parents.new xs.new ys.new }
    ensures kept { SinksKept n xs.old ys.old xs.new ys.new }
{
    if LISTING_LENGTH_LIMIT < text.len() {
        return Err(Refusal::TooLong {
            text: Text::InListing,
        });
    }
    let mut lines = LineReader::new(Text::InListing, text);
    let measures = read_stated(&mut lines, n)?;
    read_tree(&mut lines, n, parents, xs, ys)?;
    Ok(measures)
}
