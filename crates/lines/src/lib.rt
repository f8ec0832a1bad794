// What one line of the Test Anything Protocol, version 13, says. Assumes nothing.
#![tactic(auto)]

mod descriptions;
mod directives;
mod fronts;

ghost use Rattle.std.specs.Prelude.{◌≡◌, ◌≤◌, length};
ghost use Rattle.lines.specs.Line.{test_after, plan_after, line_of, Inside};

use verdicts::Verdict;

// The bytes before a directive and before a name.
pub const HASH: u8 = 35;

pub const HYPHEN: u8 = 45;

// The first number that is larger than any range is long; it stands for all that are larger.
pub const MOST_COUNT: u64 = 65536;

// The digits at a text's front: their value, and how many they are.
#[derive(Clone, Copy, Drop)]
pub struct Count {
    pub value: u64,
    pub length: usize,
}

#[derive(Clone, Copy, Drop)]
pub enum Directive {
    Skip,
    Todo,
}

// The first directive of a text: how many bytes stand before it.
#[derive(Clone, Copy, Drop)]
pub struct Cut {
    pub at: usize,
    pub directive: Option<Directive>,
}

// A test line. Its description has `length` bytes and stands in the line from `from` on.
#[derive(Clone, Copy, Drop)]
pub struct Test {
    pub verdict: Verdict,
    pub number: u64,
    pub from: usize,
    pub length: usize,
}

#[derive(Clone, Copy, Drop)]
pub enum Line {
    Version,
    Plan(u64),
    Test(Test),
    Comment,
    Malformed,
}

// A test line after a word of `w` bytes.
fn test_after(chapter: u8, ok: bool, w: usize, line: &[u8]) -> Line
    requires { w ≤ length line.now }
    ensures { (result ≡ test_after chapter ok w line.now) × Inside (length line.now) result }
{
    let number = fronts::count(&line[w..]);
    let at = w + number.length;
    if number.length == 0 {
        return Line::Malformed;
    }
    if !descriptions::ends_number(at, line) {
        return Line::Malformed;
    }
    let test = descriptions::test_from(ok, number.value, at, line);
    let from = test.from;
    let to = from + test.length;
    if !verdicts::can_be_read(chapter, &line[from..to]) {
        return Line::Malformed;
    }
    Line::Test(test)
}

// What stands behind `1..`.
fn plan_after(rest: &[u8]) -> Line
    ensures { result ≡ plan_after rest.now }
{
    let number = fronts::count(rest);
    let n = number.length;
    if n == 0 {
        return Line::Malformed;
    }
    if !fronts::only_spaces(&rest[n..]) {
        return Line::Malformed;
    }
    Line::Plan(number.value)
}

// A line without its line feed, of a text for a chapter.
pub fn read(chapter: u8, line: &[u8]) -> Line
    ensures { (result ≡ line_of chapter line.now) × Inside (length line.now) result }
{
    if line == b"TAP version 13".as_slice() {
        return Line::Version;
    }
    if line.starts_with(&[HASH]) {
        return Line::Comment;
    }
    let ok: &[u8] = b"ok ";
    if line.starts_with(ok) {
        return test_after(chapter, true, ok.len(), line);
    }
    let not_ok: &[u8] = b"not ok ";
    if line.starts_with(not_ok) {
        return test_after(chapter, false, not_ok.len(), line);
    }
    match line.strip_prefix(b"1..") {
        Some(rest) => plan_after(rest),
        None => Line::Malformed,
    }
}
