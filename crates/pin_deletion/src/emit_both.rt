// A net's text and a listing go out into two outputs, both or neither: each length is known before a byte is written.
ghost use Rattle.std.specs.Prelude.{◌≡◌, leb, length};
ghost use Rattle.tree.specs.Inner.Arrays.{HoldsNet, HoldsWeights};
ghost use Rattle.formats.specs.ListingText.{ListingInRange};
ghost use Rattle.formats.specs.Inner.ListingReader.{HasVertices, listing_held};
ghost use Rattle.writing.specs.Inner.NetSeen.{net_seen_text};
ghost use Rattle.pin_deletion.specs.Deletions.{both_fit};
ghost use Rattle.pin_deletion.specs.Inner.Answers.{texts_held, Answers};

use crate::delete_pin::Deleted;
use formats::limits::NET_LENGTH_LIMIT;
use formats::refusal::Refusal;
use operations::emit::has_room;
use tree::header::Header;
use tree::measures::Measures;
use writing::listing_view::ListingView;
use writing::net_view::NetView;

// Whether the net's text fits into so many bytes. It is counted only where some net's would not.
fn has_net_room(room: usize, net: NetView) -> bool
    ensures { result ≡ leb (length (net_seen_text net.entry)) room }
{
    NET_LENGTH_LIMIT <= room || net.length() <= room
}

// The texts of the net and the tree in the arrays go to the starts of the two outputs. All arrays are lent for one time, that of the two views.
pub fn emit_both<'a>(
    net_out: &mut [u8],
    listing_out: &mut [u8],
    header: Header,
    measures: Measures,
    n: usize,
    parents: &'a [usize],
    xs: &'a [i64],
    ys: &'a [i64],
    required: &'a [i64],
    weights: &'a [i64],
) -> Result<Deleted, Refusal>
    requires net { HoldsNet header n xs.now ys.now required.now × HoldsWeights n weights.now }
    requires listing { ListingInRange n (listing_held measures.slack measures.wire n parents.now xs.now ys.now) × HasVertices n parents.now xs.now ys.now }
    ensures { Answers (both_fit (texts_held header measures n parents.now xs.now ys.now required.now weights.now) (length net_out.old) (length listing_out.old)) net_out.old listing_out.old result net_out.new listing_out.new }
{
    let net = NetView {
        header,
        n,
        xs,
        ys,
        required,
        weights,
    };
    let listing = ListingView {
        slack: measures.slack,
        wire: measures.wire,
        n,
        parents,
        xs,
        ys,
    };
    if !has_net_room(net_out.len(), net) {
        return Err(Refusal::TooShort);
    }
    if !has_room(listing_out.len(), listing) {
        return Err(Refusal::TooShort);
    }
    let net_bytes = net.write(net_out);
    let listing_bytes = listing.write(listing_out);
    Ok(Deleted {
        net_bytes,
        listing_bytes,
    })
}
