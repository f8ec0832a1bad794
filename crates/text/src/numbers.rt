// The numbers of a line, each after one space. Assumes nothing.
ghost use Rattle.std.specs.Prelude.{◌≡◌, ◌≤◌, length, Option};
ghost use Rattle.words.specs.Bytes.{splice};
ghost use Rattle.text.specs.Fronts.{number_by, number_of, spaced, values, taken_of, Inside};

use crate::Number;

// The bytes of the first digit and of the last.
pub const ZERO: u8 = 48;

pub const NINE: u8 = 57;

pub const TEN: u64 = 10;

// A number has at most four digits, and a value of at most 4,096.
pub const MOST_DIGITS: usize = 4;

pub const MOST_NUMBER: u64 = 4096;

// What `n` digits of value `v` come to.
fn number_by(n: usize, v: u64) -> Option<Number>
    requires { n ≤ 4 }
    ensures { result ≡ number_by n v }
{
    if n == 0 || MOST_NUMBER < v {
        return None;
    }
    Some(Number {
        value: v as u16,
        len: n,
    })
}

// The number at the front of `s`. It stops at a fifth digit, so that no sum grows out of range.
fn number_of(s: &[u8]) -> Option<Number>
    ensures { result ≡ number_of s.now }
{
    let mut v: u64 = 0;
    for (i, b) in s.iter().enumerate() {
        if !b.is_ascii_digit() {
            return number_by(i, v);
        }
        if i == MOST_DIGITS {
            return None;
        }
        v = v * TEN + u64::from(*b - ZERO);
    }
    number_by(s.len(), v)
}

// The number after one space at the front of `s`.
fn spaced_number(s: &[u8]) -> Option<Number>
    ensures { result ≡ spaced s.now }
{
    number_of(s.strip_prefix(b" ")?)
}

// As many numbers as `out` has places, each after one space, from the front of `s`.
pub fn numbers(s: &[u8], out: &mut [u16]) -> Option<usize>
    ensures value { (result ≡ taken_of (length out.old) s.now) × Inside result (length s.now) }
    ensures out_after { out.new ≡ splice out.old 0 (values (length out.old) s.now) }
{
    let mut at = 0;
    for place in out.iter_mut() {
        let number = spaced_number(&s[at..])?;
        *place = number.value;
        at += 1 + number.len;
    }
    Some(at)
}
