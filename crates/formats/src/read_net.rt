// What reading the head of a net answers.
use crate::reader::LineReader;
use quantities::point::Point;
use tree::header::Header;

// What the head says, and the reader at the sinks' lines.
#[derive(Clone, Copy)]
pub struct NetHead<'a> {
    pub header: Header,
    pub root: Point,
    pub n: usize,
    pub sinks: LineReader<'a>,
}
