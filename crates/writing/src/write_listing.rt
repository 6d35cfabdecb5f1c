// Writes a tree listing.
ghost use Rattle.std.specs.Prelude.{◌+◌, ◌*◌, ◌≤◌, ◌<◌, length};
ghost use Rattle.tree.specs.Net.{sink_numbers, branch_numbers};
ghost use Rattle.formats.specs.ListingText.{leaf_text, node_text, lines_text, listing_text};
ghost use Rattle.formats.specs.Inner.Writing.{Puts, head_text};
ghost use Rattle.writing.specs.Inner.ListingSeen.{listing_seen};

use crate::listing_view::ListingView;
use formats::write::put_line;

impl ListingView<'_> {
    // The first three lines.
    fn put_head(self, out: &mut [u8]) -> usize
        requires { length (head_text self.slack.0 self.wire.0 self.n) ≤ length out.old }
        ensures { Puts out.old 0 (head_text self.entry.slack.0 self.entry.wire.0 self.entry.n) result out.new }
    {
        let first = put_line(out, 0, b"slack=", [self.slack.attoseconds()]);
        let second = put_line(out, first, b"wire=", [self.wire.nanometres() as i64]);
        put_line(out, second, b"sinks=", [self.n as i64])
    }

    // The line of sink k.
    fn put_leaf(self, out: &mut [u8], at: usize, k: usize) -> usize
        requires inside { (1 ≤ k) × (k ≤ self.n) }
        requires room { at + length (leaf_text (listing_seen self).tree.parents k) ≤ length out.old }
        ensures { Puts out.old at (leaf_text (listing_seen self.entry).tree.parents k) result out.new }
    {
        put_line(out, at, b"leaf=", [k as i64, self.parents[k] as i64])
    }

    fn put_leaves(self, out: &mut [u8], at: usize) -> usize
        requires { at + length (lines_text (leaf_text (listing_seen self).tree.parents) (sink_numbers self.n)) ≤ length out.old }
        ensures { Puts out.old at (lines_text (leaf_text (listing_seen self.entry).tree.parents) (sink_numbers self.entry.n)) result out.new }
    {
        let mut next = at;
        for k in 1..self.n + 1 {
            next = self.put_leaf(out, next, k);
        }
        next
    }

    // The line of branch point k.
    fn put_node(self, out: &mut [u8], at: usize, k: usize) -> usize
        requires inside { (self.n < k) × (k < 2 * self.n) }
        requires room { at + length (node_text self.n (listing_seen self).tree k) ≤ length out.old }
        ensures { Puts out.old at (node_text self.entry.n (listing_seen self.entry).tree k) result out.new }
    {
        put_line(
            out,
            at,
            b"node=",
            [k as i64, self.parents[k] as i64, self.xs[k], self.ys[k]],
        )
    }

    fn put_nodes(self, out: &mut [u8], at: usize) -> usize
        requires { at + length (lines_text (node_text self.n (listing_seen self).tree) (branch_numbers self.n)) ≤ length out.old }
        ensures { Puts out.old at (lines_text (node_text self.entry.n (listing_seen self.entry).tree) (branch_numbers self.entry.n)) result out.new }
    {
        let mut next = at;
        for k in self.n + 1..2 * self.n {
            next = self.put_node(out, next, k);
        }
        next
    }

    // The listing goes to the start of `out`. Where it ends is returned.
    pub fn write(self, out: &mut [u8]) -> usize
        requires { length (listing_text self.n (listing_seen self)) ≤ length out.old }
        ensures { Puts out.old 0 (listing_text self.entry.n (listing_seen self.entry)) result out.new }
    {
        let first = self.put_head(out);
        let second = self.put_leaves(out, first);
        self.put_nodes(out, second)
    }
}
