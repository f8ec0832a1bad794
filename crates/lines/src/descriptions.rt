// A test line's description: where it stands, and the verdict that its directive makes. Assumes nothing.
ghost use Rattle.std.specs.Prelude.{◌≡◌, ◌+◌, ◌≤◌, length};
ghost use Rattle.lines.specs.Line as spec;
ghost use Rattle.lines.specs.Line.{verdict_by, hyphen_len, front_len, ends_number, description_at, test_from};

use crate::{Directive, Test, directives, fronts};
use text::bytes;
use verdicts::Verdict;

// How many of the first `n` bytes are left without the spaces at their end.
fn trimmed(s: &[u8], n: usize) -> usize
    requires { n ≤ length s.now }
    ensures { (result ≡ spec.trimmed n s.now) × (result ≤ n) }
{
    match s[..n].iter().rposition(|b| *b != bytes::SPACE) {
        Some(last) => last + 1,
        None => 0,
    }
}

// One hyphen with the spaces after it.
fn hyphen_len(s: &[u8]) -> usize
    ensures { (result ≡ hyphen_len s.now) × (result ≤ length s.now) }
{
    match s.strip_prefix(&[crate::HYPHEN]) {
        Some(rest) => 1 + fronts::spaces(rest),
        None => 0,
    }
}

// What is no part of the description: spaces, then one hyphen with its spaces.
fn front_len(s: &[u8]) -> usize
    ensures { (result ≡ front_len s.now) × (result ≤ length s.now) }
{
    let n = fronts::spaces(s);
    n + hyphen_len(&s[n..])
}

// Whether the line ends at `at`, or a space stands there.
pub fn ends_number(at: usize, line: &[u8]) -> bool
    ensures { result ≡ ends_number at line.now }
{
    line.len() <= at || line[at] == bytes::SPACE
}

fn verdict_by(ok: bool, directive: Option<Directive>) -> Verdict
    ensures { result ≡ verdict_by ok directive }
{
    match directive {
        Some(Directive::Skip) => Verdict::Skipped,
        Some(Directive::Todo) => Verdict::Error,
        None => { if ok { Verdict::Pass } else { Verdict::Fail } }
    }
}

// What a test line says whose number ends at `at`.
pub fn test_from(ok: bool, number: u64, at: usize, line: &[u8]) -> Test
    requires { at ≤ length line.now }
    ensures { (result ≡ test_from ok number line.now (description_at at line.now)) × (result.from + result.length ≤ length line.now) }
{
    let past = (at + 1).min(line.len());
    let from = past + front_len(&line[past..]);
    let cut = directives::first_directive(&line[from..]);
    let directive = cut.directive;
    Test {
        verdict: verdict_by(ok, directive),
        number,
        from,
        length: trimmed(&line[from..], cut.at),
    }
}
