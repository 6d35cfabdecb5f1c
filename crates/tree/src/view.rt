// A net and a tree over arrays with a place for each vertex, by its number: lent to be read, with what always holds of them.
ghost use Rattle.tree.specs.Inner.Arrays.{HoldsNet, HoldsTree};

use crate::header::Header;

// A net of n sinks: the root and the sinks stand at the places 0 to n.
#[derive(Clone, Copy)]
pub struct NetView<'a> {
    pub header: Header,
    pub n: usize,
    pub xs: &'a [i64],
    pub ys: &'a [i64],
    pub required: &'a [i64],
    pub ghost held: { HoldsNet header n xs.now ys.now required.now },
}

// A tree over a net of n sinks, legal or not: the parents of the vertices below the root, and where each vertex stands.
#[derive(Clone, Copy)]
pub struct TreeView<'a> {
    pub n: usize,
    pub parents: &'a [usize],
    pub xs: &'a [i64],
    pub ys: &'a [i64],
    pub ghost held: { HoldsTree n parents.now xs.now ys.now },
}
