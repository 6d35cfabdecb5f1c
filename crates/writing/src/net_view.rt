// A net as it is lent: in arrays, with its weights.
ghost use Rattle.tree.specs.Inner.Arrays.{HoldsNet, HoldsWeights};

use tree::header::Header;

#[derive(Clone, Copy)]
pub struct NetView<'a> {
    pub header: Header,
    pub n: usize,
    pub xs: &'a [i64],
    pub ys: &'a [i64],
    pub required: &'a [i64],
    pub weights: &'a [i64],
    pub ghost holds_net: { HoldsNet header n xs.now ys.now required.now },
    pub ghost holds_weights: { HoldsWeights n weights.now },
}
