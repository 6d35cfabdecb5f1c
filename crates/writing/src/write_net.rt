// Writes a net.
ghost use Rattle.std.specs.Prelude.{◌+◌, ◌≤◌, length};
ghost use Rattle.tree.specs.Net.{sink_numbers};
ghost use Rattle.formats.specs.ListingText.{lines_text};
ghost use Rattle.formats.specs.Inner.Writing.{Puts};
ghost use Rattle.writing.specs.Inner.NetWriting.{net_head_text, HeadInRange};
ghost use Rattle.writing.specs.Inner.NetSeen.{net_seen_text, sink_seen_line};

use crate::net_view::NetView;
use formats::write::put_line;
use quantities::point::Point;
use tree::header::Header;

// The first five lines.
fn put_head(out: &mut [u8], header: Header, root: Point, n: usize) -> usize
    requires head_in_range { HeadInRange header root n }
    requires room { length (net_head_text header root n) ≤ length out.old }
    ensures { Puts out.old 0 (net_head_text header root n) result out.new }
{
    let wire = header.wire;
    let horizontal = wire.horizontal.attoseconds_per_nanometre() as i64;
    let vertical = wire.vertical.attoseconds_per_nanometre() as i64;
    let first = put_line(out, 0, b"root=", [root.x, root.y]);
    let second = put_line(out, first, b"branch=", [header.branch.attoseconds()]);
    let third = put_line(out, second, b"wire=", [horizontal, vertical]);
    let fourth = put_line(out, third, b"need=", [header.need.attoseconds()]);
    put_line(out, fourth, b"sinks=", [n as i64])
}

impl NetView<'_> {
    // The line of sink k.
    fn put_sink(self, out: &mut [u8], at: usize, k: usize) -> usize
        requires inside { (1 ≤ k) × (k ≤ self.n) }
        requires room { at + length (sink_seen_line self k) ≤ length out.old }
        ensures { Puts out.old at (sink_seen_line self.entry k) result out.new }
    {
        put_line(
            out,
            at,
            b"sink=",
            [self.xs[k], self.ys[k], self.required[k], self.weights[k]],
        )
    }

    fn put_sinks(self, out: &mut [u8], at: usize) -> usize
        requires { at + length (lines_text (sink_seen_line self) (sink_numbers self.n)) ≤ length out.old }
        ensures { Puts out.old at (lines_text (sink_seen_line self.entry) (sink_numbers self.entry.n)) result out.new }
    {
        let mut next = at;
        for k in 1..self.n + 1 {
            next = self.put_sink(out, next, k);
        }
        next
    }

    // The net's text goes to the start of `out`. Where it ends is returned.
    pub fn write(self, out: &mut [u8]) -> usize
        requires { length (net_seen_text self) ≤ length out.old }
        ensures { Puts out.old 0 (net_seen_text self.entry) result out.new }
    {
        let root = Point {
            x: self.xs[0],
            y: self.ys[0],
        };
        let next = put_head(out, self.header, root, self.n);
        self.put_sinks(out, next)
    }
}
