// A pin is deleted: a net, an accepted listing over it and a sink in, the shorter net and listing out; or a refusal: judge's, then 15, 16 and 6.
ghost use Rattle.std.specs.Prelude.{◌≡◌, length};
ghost use Rattle.tree.specs.Inner.Arrays.{net_of, tree_of, weights_of};
ghost use Rattle.operations.specs.Inner.Acceptance.{HasRoom};
ghost use Rattle.shorter_tree.specs.Inner.Arrays.{HoldsLegal, SlackInRange};
ghost use Rattle.pin_deletion.specs.Deletions.{is_sink, deleted, deletion_of, net_output, listing_output, deletion_answer};
ghost use Rattle.pin_deletion.specs.Inner.Answers.{Answers};

use crate::emit_both::emit_both;
use formats::refusal::Refusal;
use operations::accept::accept_over;
use reading::read_net::read_head;
use shorter_tree::shorten::shorten;
use tree::header::Header;
use tree::limits::SINK_LIMIT;

// How many bytes went into each output.
#[derive(Clone, Copy, Debug, PartialEq, Eq)]
pub struct Deleted {
    pub net_bytes: usize,
    pub listing_bytes: usize,
}

// Whether s is 1 to n.
fn is_sink(n: usize, s: usize) -> bool
    ensures { result ≡ is_sink n s }
{
    1 <= s && s <= n
}

// Sink s of n, where it may go, of the net and the legal tree in the arrays.
fn delete_sink(
    header: Header,
    n: usize,
    s: usize,
    xs: &mut [i64],
    ys: &mut [i64],
    required: &mut [i64],
    weights: &mut [i64],
    parents: &mut [usize],
    first: &mut [usize],
    second: &mut [usize],
    queue: &mut [usize],
    slacks: &mut [i64],
    net_out: &mut [u8],
    listing_out: &mut [u8],
) -> Result<Deleted, Refusal>
    requires held { HoldsLegal header n parents.old xs.old ys.old required.old weights.old }
    requires listed { SlackInRange header n parents.old xs.old ys.old required.old }
    requires room { HasRoom n first.old second.old queue.old slacks.old }
    ensures { Answers (deleted (net_of header n xs.old ys.old required.old) (weights_of n weights.old) (tree_of n parents.old xs.old ys.old) s (length net_out.old) (length listing_out.old)) net_out.old listing_out.old result net_out.new listing_out.new }
{
    if !is_sink(n, s) {
        return Err(Refusal::NotASink);
    }
    if n == 1 {
        return Err(Refusal::OnlySink);
    }
    let measures = shorten(
        header, n, s, parents, xs, ys, required, weights, first, second, queue, slacks,
    );
    emit_both(
        net_out,
        listing_out,
        header,
        measures,
        n - 1,
        parents,
        xs,
        ys,
        required,
        weights,
    )
}

// Any two texts, any number and any two outputs get an answer; a refusal leaves both outputs as they were.
pub fn delete_pin(
    net: &[u8],
    listing: &[u8],
    sink: usize,
    net_out: &mut [u8],
    listing_out: &mut [u8],
) -> Result<Deleted, Refusal>
    ensures answer { result ≡ deletion_answer (deletion_of net.now listing.now sink (length net_out.old) (length listing_out.old)) }
    ensures net { net_out.new ≡ net_output net.now listing.now sink net_out.old listing_out.old }
    ensures listing { listing_out.new ≡ listing_output net.now listing.now sink net_out.old listing_out.old }
{
    let head = read_head(net)?;
    let mut xs = [0i64; 2 * SINK_LIMIT as usize];
    let mut ys = [0i64; 2 * SINK_LIMIT as usize];
    let mut required = [0i64; SINK_LIMIT as usize + 1];
    let mut weights = [0i64; SINK_LIMIT as usize + 1];
    let mut parents = [0usize; 2 * SINK_LIMIT as usize];
    let mut first = [0usize; 2 * SINK_LIMIT as usize];
    let mut second = [0usize; 2 * SINK_LIMIT as usize];
    let mut queue = [0usize; 2 * SINK_LIMIT as usize];
    let mut slacks = [0i64; 2 * SINK_LIMIT as usize];
    accept_over(
        head,
        &mut xs,
        &mut ys,
        &mut required,
        &mut weights,
        &mut parents,
        &mut first,
        &mut second,
        &mut queue,
        &mut slacks,
        listing,
    )?;
    delete_sink(
        head.header,
        head.n,
        sink,
        &mut xs,
        &mut ys,
        &mut required,
        &mut weights,
        &mut parents,
        &mut first,
        &mut second,
        &mut queue,
        &mut slacks,
        net_out,
        listing_out,
    )
}
