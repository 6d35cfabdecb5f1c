// Accept: a listing over its net, as every operation on the two starts. Net and tree stay in the arrays as they were read.
ghost use Rattle.std.specs.Prelude.{◌≡◌, ◌*◌, ◌≤◌, ◌<◌, length, OnOk};
ghost use Rattle.tree.specs.Limits.{sink_limit};
ghost use Rattle.tree.specs.Inner.Arrays.{net_of, HoldsNet, HoldsWeights, RootDown};
ghost use Rattle.formats.specs.Inner.ListingReader.{HasVertices, listing_held, listing_outcome, SinksKept};
ghost use Rattle.formats.specs.Inner.Readers.{HeadHeld, HasPlace};
ghost use Rattle.operations.specs.Accepting.{vertex_line, true_only, accept_tree, accept_listing};
ghost use Rattle.operations.specs.Inner.Acceptance.{HasRoom, accepted_over, over_outcome};

use formats::read_net::NetHead;
use formats::refusal::Refusal;
use reading::read_listing::read_listing;
use reading::read_net::read_rest;
use tree::children::wrong_children;
use tree::descend::lowest_unreached;
use tree::header::Header;
use tree::measures::Measures;
use tree::view::TreeView;

// The line of vertex v in a listing; 0 for the root, which has none.
fn vertex_line(v: usize) -> usize
    requires { v < 2 * sink_limit }
    ensures { result ≡ vertex_line v }
{
    if v == 0 { 0 } else { v + 3 }
}

// A tree that is legal, by its stated measures. `queue` has its vertices from the root down.
fn accept_stated(
    header: Header,
    tree: TreeView,
    required: &[i64],
    queue: &[usize],
    slacks: &mut [i64],
    stated: Measures,
) -> Result<Measures, Refusal>
    requires holds_net { HoldsNet header tree.n tree.xs.now tree.ys.now required.now }
    requires root_down { RootDown tree.n tree.parents.now queue.now × (2 * tree.n ≤ length slacks.old) }
    ensures { listing_outcome result tree.entry.n tree.entry.parents.now tree.entry.xs.now tree.entry.ys.now ≡ true_only (net_of header tree.entry.n tree.entry.xs.now tree.entry.ys.now required.now) (listing_held stated.slack stated.wire tree.entry.n tree.entry.parents.now tree.entry.xs.now tree.entry.ys.now) }
{
    let measured = tree.measure_tree(header, required, queue, slacks);
    if measured.slack != stated.slack {
        return Err(Refusal::OtherSlack);
    }
    if measured.wire != stated.wire {
        return Err(Refusal::OtherWire);
    }
    Ok(stated)
}

// A tree with its stated measures.
fn accept_tree(
    header: Header,
    tree: TreeView,
    required: &[i64],
    first: &mut [usize],
    second: &mut [usize],
    queue: &mut [usize],
    slacks: &mut [i64],
    stated: Measures,
) -> Result<Measures, Refusal>
    requires holds_net { HoldsNet header tree.n tree.xs.now tree.ys.now required.now }
    requires has_room { HasRoom tree.n first.old second.old queue.old slacks.old }
    ensures { listing_outcome result tree.entry.n tree.entry.parents.now tree.entry.xs.now tree.entry.ys.now ≡ accept_tree (net_of header tree.entry.n tree.entry.xs.now tree.entry.ys.now required.now) (listing_held stated.slack stated.wire tree.entry.n tree.entry.parents.now tree.entry.xs.now tree.entry.ys.now) }
{
    if let Some(v) = wrong_children(tree.n, tree.parents, queue) {
        return Err(Refusal::WrongChildren {
            line: vertex_line(v),
        });
    }
    if let Some(v) = lowest_unreached(tree.n, tree.parents, first, second, queue) {
        return Err(Refusal::NotReached {
            line: vertex_line(v),
        });
    }
    accept_stated(header, tree, required, queue, slacks, stated)
}

// The listing over a net that stands in the arrays: its measures, as it states them, where it is accepted. Its parents and points go to `parents`, `xs` and `ys`; the
// other arrays are room to work in.
// The arrays are lent one by one: callers lend some of them on afterwards, and a struct of mutable slices would be taken apart for each of these calls.
pub fn accept(
    header: Header,
    n: usize,
    xs: &mut [i64],
    ys: &mut [i64],
    required: &[i64],
    parents: &mut [usize],
    first: &mut [usize],
    second: &mut [usize],
    queue: &mut [usize],
    slacks: &mut [i64],
    listing: &[u8],
) -> Result<Measures, Refusal>
    requires holds_net { HoldsNet header n xs.old ys.old required.now × HasVertices n parents.old xs.old ys.old }
    requires has_room { HasRoom n first.old second.old queue.old slacks.old }
    ensures accepted { listing_outcome result n parents.new xs.new ys.new ≡ accept_listing (net_of header n xs.old ys.old required.now) listing.now }
    ensures kept { SinksKept n xs.old ys.old xs.new ys.new }
{
    let stated = read_listing(listing, n, parents, xs, ys)?;
    let tree = TreeView { n, parents, xs, ys };
    accept_tree(header, tree, required, first, second, queue, slacks, stated)
}

// The same over a net whose head was read: its sinks are read into the arrays first.
pub fn accept_over(
    head: NetHead,
    xs: &mut [i64],
    ys: &mut [i64],
    required: &mut [i64],
    weights: &mut [i64],
    parents: &mut [usize],
    first: &mut [usize],
    second: &mut [usize],
    queue: &mut [usize],
    slacks: &mut [i64],
    listing: &[u8],
) -> Result<Measures, Refusal>
    requires head { HeadHeld sink_limit head.sinks.text.now head }
    requires has_places { HasPlace head.n xs.old ys.old required.old weights.old × HasVertices head.n parents.old xs.old ys.old }
    requires has_room { HasRoom head.n first.old second.old queue.old slacks.old }
    ensures accepted { over_outcome result head.entry.header head.entry.n xs.new ys.new required.new weights.new parents.new ≡ accepted_over head.entry.sinks.text.now listing.now }
    ensures held { OnOk result (HoldsNet head.entry.header head.entry.n xs.new ys.new required.new × HoldsWeights head.entry.n weights.new) }
{
    read_rest(head, xs, ys, required, weights)?;
    accept(
        head.header,
        head.n,
        xs,
        ys,
        required,
        parents,
        first,
        second,
        queue,
        slacks,
        listing,
    )
}
