// How long a listing is, without writing it.
ghost use Rattle.std.specs.Prelude.{◌≡◌, ◌*◌, ◌≤◌, ◌<◌, length};
ghost use Rattle.tree.specs.Net.{sink_numbers, branch_numbers};
ghost use Rattle.formats.specs.ListingText.{leaf_text, node_text, lines_text, listing_text};
ghost use Rattle.formats.specs.Inner.Writing.{head_text};
ghost use Rattle.writing.specs.Inner.ListingSeen.{listing_seen};

use crate::line_length::line_length;
use crate::listing_view::ListingView;

impl ListingView<'_> {
    // The first three lines.
    fn head_length(self) -> usize
        ensures { result ≡ length (head_text self.entry.slack.0 self.entry.wire.0 self.entry.n) }
    {
        let first = line_length(b"slack=", [self.slack.attoseconds()]);
        let second = line_length(b"wire=", [self.wire.nanometres() as i64]);
        first + second + line_length(b"sinks=", [self.n as i64])
    }

    // The line of sink k.
    fn leaf_length(self, k: usize) -> usize
        requires { (1 ≤ k) × (k ≤ self.n) }
        ensures { result ≡ length (leaf_text (listing_seen self.entry).tree.parents k) }
    {
        line_length(b"leaf=", [k as i64, self.parents[k] as i64])
    }

    fn leaves_length(self) -> usize
        ensures { result ≡ length (lines_text (leaf_text (listing_seen self.entry).tree.parents) (sink_numbers self.entry.n)) }
    {
        (1..self.n + 1).map(|k| self.leaf_length(k)).sum()
    }

    // The line of branch point k.
    fn node_length(self, k: usize) -> usize
        requires { (self.n < k) × (k < 2 * self.n) }
        ensures { result ≡ length (node_text self.entry.n (listing_seen self.entry).tree k) }
    {
        line_length(
            b"node=",
            [k as i64, self.parents[k] as i64, self.xs[k], self.ys[k]],
        )
    }

    fn nodes_length(self) -> usize
        ensures { result ≡ length (lines_text (node_text self.entry.n (listing_seen self.entry).tree) (branch_numbers self.entry.n)) }
    {
        (self.n + 1..2 * self.n).map(|k| self.node_length(k)).sum()
    }

    // The length of the listing.
    pub fn length(self) -> usize
        ensures { result ≡ length (listing_text self.entry.n (listing_seen self.entry)) }
    {
        self.head_length() + self.leaves_length() + self.nodes_length()
    }
}
