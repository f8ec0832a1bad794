// What stands at a text's front: spaces, digits. Assumes nothing.
ghost use Rattle.std.specs.Prelude.{◌≡◌, ◌≤◌, length};
ghost use Rattle.lines.specs.Line.{leading, only_spaces, count_of};

use crate::Count;
use text::{bytes, numbers};

// How many spaces there are.
pub fn spaces(s: &[u8]) -> usize
    ensures { (result ≡ leading s.now) × (result ≤ length s.now) }
{
    s.iter().position(|b| *b != bytes::SPACE).unwrap_or(s.len())
}

pub fn only_spaces(s: &[u8]) -> bool
    ensures { result ≡ only_spaces s.now }
{
    spaces(s) == s.len()
}

// The digits, however many. Once the value is past every range's length, more of them leave it there. Not inlined: in a loop of its caller's the
// compiler had no register left that multiplies by ten in one step, and it took 1.4 times as long.
#[inline(never)]
pub fn count(s: &[u8]) -> Count
    ensures { (result ≡ count_of s.now) × (result.length ≤ length s.now) }
{
    let mut value: u64 = 0;
    for (length, b) in s.iter().enumerate() {
        if !b.is_ascii_digit() {
            return Count { value, length };
        }
        let next = value * numbers::TEN + u64::from(*b - numbers::ZERO);
        value = next.min(crate::MOST_COUNT);
    }
    Count {
        value,
        length: s.len(),
    }
}
