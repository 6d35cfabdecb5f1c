// A text in, and one out. Which bytes a file, a pipe or a terminal gives or takes no contract can say; of a reader and a writer whose bytes are known, as those
// over memory, the contracts do.
ghost use Rattle.std.specs.Prelude.{◌≤◌, IfSome, length, take};
ghost use Rattle.std.specs.Io.KnownBytes.{Appends};
ghost use Rattle.console.specs.Streams.{IsRead};
ghost use Rattle.console.specs.Inner.Rooms.{FitsIn};

use std::fs;
use std::io::{Error, ErrorKind, Read, Write};
use std::rt::Files;

// How many signals may interrupt the reading of one text.
const INTERRUPTIONS: usize = 1_000;

// Room for the system's words for any error, with its number.
const WORDS_LENGTH: usize = 256;

// What failed and why, in a line on standard error.
fn tell<E: Write>(err: &mut E, name: &[u8], message: &[u8]) {
    let _ = err.write_all(name);
    let _ = err.write_all(b": ");
    let _ = err.write_all(message);
    let _ = err.write_all(b"\n");
}

// The same of an error: the system's words, without the error's number that std puts after them.
fn tell_failure<E: Write>(err: &mut E, name: &[u8], error: Error) {
    let mut words = [0u8; WORDS_LENGTH];
    let mut rest: &mut [u8] = &mut words;
    let _ = write!(rest, "{error}");
    let length = WORDS_LENGTH.saturating_sub(rest.len());
    let told = match std::str::from_utf8(&words[..length]) {
        Ok(text) => text,
        Err(_) => "",
    };
    let message = match told.rsplit_once(" (os error ") {
        Some((front, _)) => front,
        None => told,
    };
    tell(err, name, message.as_bytes());
}

// Reads a text to its end, or as much of it as `text` has room for: so many bytes are given. No read follows the one that tells the end, so that at a terminal one
// ^D is enough. Where it could not be read there are none, and that is told on standard error by the text's name. The loop is a while: how often it turns the
// reader decides.
pub fn read_text<R: Read, E: Write>(
    input: &mut R,
    name: &[u8],
    text: &mut [u8],
    err: &mut E,
) -> Option<usize>
    ensures fits { FitsIn (length text.old) result }
    ensures read { IfSome (R.remaining input.old) (λ left. IsRead left text.new result) }
{
    let mut at = 0;
    let mut interrupted = 0;
    while at < text.len() {
        match input.read(&mut text[at..]) {
            Ok(0) => return Some(at),
            Ok(got) => at += got,
            Err(error) => {
                interrupted += 1;
                if error.kind() != ErrorKind::Interrupted || interrupted == INTERRUPTIONS {
                    tell_failure(err, name, error);
                    return None;
                }
            }
        }
    }
    Some(at)
}

// Reads a file to its end. Where it could not be read, that is told on standard error. The library opens files by names in UTF-8 alone.
pub fn read_file<F: Files, E: Write>(
    files: &F,
    name: &[u8],
    text: &mut [u8],
    err: &mut E,
) -> Option<usize>
    ensures { FitsIn (length text.old) result }
{
    match std::str::from_utf8(name) {
        Ok(path) => read_opened(files, path, text, err),
        Err(_) => {
            tell(err, name, b"the name is not UTF-8");
            None
        }
    }
}

fn read_opened<F: Files, E: Write>(
    files: &F,
    path: &str,
    text: &mut [u8],
    err: &mut E,
) -> Option<usize>
    ensures { FitsIn (length text.old) result }
{
    match fs::open(files, path) {
        Ok(opened) => {
            let mut file = opened;
            read_text(&mut file, path.as_bytes(), text, err)
        }
        Err(error) => {
            tell_failure(err, path.as_bytes(), error);
            None
        }
    }
}

// The answer goes out by one write: nothing is written after a write that took only a part. What is given is how many of its bytes went out, as the system tells.
fn write_answer<O: Write, E: Write>(out: &mut O, err: &mut E, answer: &[u8]) -> usize
    ensures fits { result ≤ length answer.now }
    ensures written { Appends (O.contents out.old) (O.contents out.new) (take result answer.now) }
{
    match out.write(answer) {
        Ok(sent) => {
            if sent < answer.len() {
                let _ = err.write_all(b"standard output: the answer was cut short\n");
            }
            sent
        }
        Err(error) => {
            tell_failure(err, b"standard output", error);
            0
        }
    }
}

// The answer goes to standard output, the complaint to standard error. What could not go out is told on standard error. What is given is how many bytes of the answer went out, as the system tells.
pub fn write_out<O: Write, E: Write>(
    out: &mut O,
    err: &mut E,
    answer: &[u8],
    complaint: &[u8],
) -> usize
    ensures fits { result ≤ length answer.now }
    ensures written { Appends (O.contents out.old) (O.contents out.new) (take result answer.now) }
{
    let sent = write_answer(out, err, answer);
    let _ = err.write_all(complaint);
    sent
}
