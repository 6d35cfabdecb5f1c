// A listing as it is lent: a tree in arrays, with its slack and wire.
ghost use Rattle.formats.specs.ListingText.{ListingInRange};
ghost use Rattle.formats.specs.Inner.ListingReader.{HasVertices, listing_held};

use quantities::length::Length;
use quantities::time::Time;

#[derive(Clone, Copy)]
pub struct ListingView<'a> {
    pub slack: Time,
    pub wire: Length,
    pub n: usize,
    pub parents: &'a [usize],
    pub xs: &'a [i64],
    pub ys: &'a [i64],
    pub ghost in_range: { ListingInRange n (listing_held slack wire n parents.now xs.now ys.now) },
    pub ghost has_vertices: { HasVertices n parents.now xs.now ys.now },
}
