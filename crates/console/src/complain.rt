// A refusal for standard error: the text's name, the line and the words.
ghost use Rattle.std.specs.Prelude.{◌+◌, ◌≤◌, length};
ghost use Rattle.formats.specs.Inner.Writing.{Puts};
ghost use Rattle.console.specs.Words.{text_name, line_mark, complaint};
ghost use Rattle.console.specs.Printing.{complaint_room};
ghost use Rattle.console.specs.Inner.Rooms.{NamesFit, mark_room};

use crate::words::words;
use formats::refusal::Refusal;
use formats::write::{put_bytes, put_natural};

// The name of text 1, the net, of 2, the listing, or of 0, the output.
fn put_name(out: &mut [u8], net: &[u8], listing: &[u8], text: u8) -> usize
    requires { NamesFit net.now listing.now 0 out.old }
    ensures { Puts out.old 0 (text_name net.now listing.now text) result out.new }
{
    let name: &[u8] = match text {
        0 => b"output",
        1 => net,
        _ => listing,
    };
    put_bytes(out, 0, name)
}

// A colon and the line; nothing where no line is meant.
fn put_mark(out: &mut [u8], at: usize, line: usize) -> usize
    requires { at + mark_room ≤ length out.old }
    ensures { Puts out.old at (line_mark line) result out.new }
{
    if line == 0 {
        return at;
    }
    let next = put_bytes(out, at, b":");
    put_natural(out, next, line as u64)
}

// Where the refusal is and why goes to the start of `out`.
pub fn put_complaint(out: &mut [u8], net: &[u8], listing: &[u8], refusal: Refusal) -> usize
    requires { (length net.now + complaint_room ≤ length out.old) × (length listing.now + complaint_room ≤ length out.old) }
    ensures { Puts out.old 0 (complaint net.now listing.now refusal) result out.new }
{
    let told = refusal.told();
    let named = put_name(out, net, listing, told.text);
    let marked = put_mark(out, named, told.line);
    let begun = put_bytes(out, marked, b": ");
    let worded = put_bytes(out, begun, words(refusal));
    put_bytes(out, worded, b"\n")
}
