// How long a net is, without writing it.
ghost use Rattle.std.specs.Prelude.{◌≡◌, ◌≤◌, length};
ghost use Rattle.tree.specs.Net.{sink_numbers};
ghost use Rattle.formats.specs.ListingText.{lines_text};
ghost use Rattle.writing.specs.Inner.NetWriting.{net_head_text, HeadInRange};
ghost use Rattle.writing.specs.Inner.NetSeen.{net_seen_text, sink_seen_line};

use crate::line_length::line_length;
use crate::net_view::NetView;
use quantities::point::Point;
use tree::header::Header;

// The first five lines.
fn head_length(header: Header, root: Point, n: usize) -> usize
    requires { HeadInRange header root n }
    ensures { result ≡ length (net_head_text header root n) }
{
    let wire = header.wire;
    let horizontal = wire.horizontal.attoseconds_per_nanometre() as i64;
    let vertical = wire.vertical.attoseconds_per_nanometre() as i64;
    let first = line_length(b"root=", [root.x, root.y]);
    let second = line_length(b"branch=", [header.branch.attoseconds()]);
    let third = line_length(b"wire=", [horizontal, vertical]);
    let fourth = line_length(b"need=", [header.need.attoseconds()]);
    let fifth = line_length(b"sinks=", [n as i64]);
    first + second + third + fourth + fifth
}

impl NetView<'_> {
    // The line of sink k.
    fn sink_length(self, k: usize) -> usize
        requires { (1 ≤ k) × (k ≤ self.n) }
        ensures { result ≡ length (sink_seen_line self.entry k) }
    {
        line_length(
            b"sink=",
            [self.xs[k], self.ys[k], self.required[k], self.weights[k]],
        )
    }

    fn sinks_length(self) -> usize
        ensures { result ≡ length (lines_text (sink_seen_line self.entry) (sink_numbers self.entry.n)) }
    {
        (1..self.n + 1).map(|k| self.sink_length(k)).sum()
    }

    // The length of the net's text.
    pub fn length(self) -> usize
        ensures { result ≡ length (net_seen_text self.entry) }
    {
        let root = Point {
            x: self.xs[0],
            y: self.ys[0],
        };
        head_length(self.header, root, self.n) + self.sinks_length()
    }
}
