// A line of requests, `write ` or `read `, read; and the record that its text stands for. Each function goes by a line without its line feed. Assumes nothing.
#![tactic(auto)]

ghost use Rattle.std.specs.Prelude.{◌≡◌, ◌≤◌, length};
ghost use Rattle.desk.specs.declared.Kind.TheVariants.{Write};
ghost use Rattle.sizes.specs.Sizes.{record_len};
ghost use Rattle.script.specs.Lines.{rest_good, request_after, request_of, record_of};

use desk::Kind;
use sizes::Sizes;
use text::numbers;

// A line of requests. The text stands from `text` up to the line's end.
#[derive(Clone, Copy, Drop)]
pub struct Request {
    pub kind: Kind,
    pub id: u16,
    pub leaf: u16,
    pub text: usize,
}

// Whether what stands after the leaf of a write is nothing, or one space and a text.
fn text_rest(rest: &[u8]) -> bool
    ensures { result ≡ rest_good Write rest.now }
{
    if rest.is_empty() {
        return true;
    }
    let Some(text) = rest.strip_prefix(b" ") else {
        return false;
    };
    text.len() <= Sizes::RECORD && !text.contains(&0)
}

// Whether what stands after the leaf is good for the kind.
fn rest_good(kind: Kind, rest: &[u8]) -> bool
    ensures { result ≡ rest_good kind rest.now }
{
    match kind {
        Kind::Read => rest.is_empty(),
        Kind::Write => text_rest(rest),
    }
}

// A request after a word of `w` bytes. Its numbers are read from the word's own space on, so that each stands after one.
fn request_after(line: &[u8], kind: Kind, w: usize) -> Option<Request>
    requires { (1 ≤ w) × (w ≤ length line.now) }
    ensures { result ≡ request_after kind w line.now }
{
    let from = w - 1;
    let mut two = [0u16; 2];
    let at = from + numbers::numbers(&line[from..], &mut two)?;
    if !rest_good(kind, &line[at..]) {
        return None;
    }
    // The text begins after the space at `at`. At the line's end there is none, and the text is empty.
    let text = (at + 1).min(line.len());
    Some(Request {
        kind,
        id: two[0],
        leaf: two[1],
        text,
    })
}

// A line of requests.
pub fn request_line(line: &[u8]) -> Option<Request>
    ensures { result ≡ request_of line.now }
{
    let write: &[u8] = b"write ";
    if line.starts_with(write) {
        return request_after(line, Kind::Write, write.len());
    }
    let read: &[u8] = b"read ";
    if line.starts_with(read) {
        return request_after(line, Kind::Read, read.len());
    }
    None
}

// A text, padded with zeros to a record.
pub fn lay_text(record: &mut [u8], text: &[u8])
    requires { (length «record».old ≡ record_len) × (length text.now ≤ record_len) }
    ensures { «record».new ≡ record_of text.now }
{
    let n = text.len();
    words::copy(record, 0, text);
    words::clear(record, n, Sizes::RECORD - n);
}
