// Reads a lent text line by line, and knows which line it has come to.
ghost use Rattle.std.specs.Prelude.{◌≡◌, ◌+◌, ◌≤◌, ◌<◌, Ok, Err, cond, ltb, length};
ghost use Rattle.formats.specs.Reading.Rows.{line_in};
ghost use Rattle.formats.specs.Inner.Ranging.{Narrow, AllNarrow};
ghost use Rattle.formats.specs.Inner.Readers.{AtLine, ahead, row_answer, row_moved, LineSays, NumberSays};
ghost use Rattle.formats.specs.declared.refusal.Refusal.TheVariants.{BytesFollow};

use crate::number::Number;
use crate::ranges::{Range, in_ranges};
use crate::refusal::{Refusal, Text};
use crate::scan::line_at;

// A lent text, which of the two it is, where the next line starts in it, and that line's number.
#[derive(Clone, Copy)]
pub struct LineReader<'a> {
    pub which: Text,
    pub text: &'a [u8],
    pub at: usize,
    pub line: usize,
}

impl<'a> LineReader<'a> {
    pub fn new(which: Text, text: &'a [u8]) -> Self
        ensures { result ≡ record { which = which; text = text.entry; at = 0; line = 1 } }
    {
        LineReader {
            which,
            text,
            at: 0,
            line: 1,
        }
    }

    // The numbers of the line that the reader has come to, `key` and K numbers, after which it moves on. Where the line is not as due it stays.
    #[inline(always)]
    pub fn row<const K: usize>(&mut self, key: &[u8]) -> Result<[Number; K], Refusal>
        requires { AtLine self.old × (1 ≤ K) }
        ensures answer { result ≡ row_answer self.old (line_in key.now K (ahead self.old)) }
        ensures moved { self.new ≡ row_moved self.old (line_in key.now K (ahead self.old)) }
    {
        let not_due = Refusal::NotDue {
            text: self.which,
            line: self.line,
        };
        let (numbers, next) = line_at(self.text, self.at, key).ok_or(not_due)?;
        self.at = next;
        self.line += 1;
        Ok(numbers)
    }

    // The numbers of that line, each in its range. Where it is refused the reader stays.
    #[inline(always)]
    pub fn numbers<const K: usize>(
        &mut self,
        key: &[u8],
        ranges: [Range; K],
    ) -> Result<[i64; K], Refusal>
        requires { AtLine self.old × AllNarrow ranges × (1 ≤ K) }
        ensures { LineSays key.now ranges.entry self.old result self.new }
    {
        let out_of_range = Refusal::OutOfRange {
            text: self.which,
            line: self.line,
        };
        let mut after = *self;
        let numbers: [Number; K] = after.row(key)?;
        let values = in_ranges(&numbers, ranges).ok_or(out_of_range)?;
        *self = after;
        Ok(values)
    }

    // The number of that line, in its range. Where it is refused the reader stays.
    pub fn number(&mut self, key: &[u8], range: Range) -> Result<i64, Refusal>
        requires { AtLine self.old × Narrow range }
        ensures { NumberSays key.now range self.old result self.new }
    {
        let [value] = self.numbers(key, [range])?;
        Ok(value)
    }

    // Nothing follows.
    pub fn end(&self) -> Result<(), Refusal>
        ensures { result ≡ cond (ltb self.now.at (length self.now.text.now)) (Err (BytesFollow self.now.which self.now.line)) (Ok tt) }
    {
        if self.at < self.text.len() {
            return Err(Refusal::BytesFollow {
                text: self.which,
                line: self.line,
            });
        }
        Ok(())
    }
}
