// Bytes as lists: numbers read and written at a place, bytes copied, cleared and compared. The definitions are in specs/;
// the laws of them, which every crate above cites, in proofs/.
#![tactic(auto)]

ghost use Rattle.std.specs.Prelude.{◌≡◌, ◌+◌, ◌≤◌, length};
ghost use Rattle.words.specs.Bytes.{part, splice, zeros};
ghost use Rattle.words.specs.Bytes as spec;
ghost use Rattle.words.specs.Numbers.{number, bytes_of, big_number, big_bytes_of};
ghost use Rattle.words.specs.Tests.{all_zero};

// The `N` bytes of `s` from `at` on, as an array: what the library's conversions take.
fn array_at<const N: usize>(s: &[u8], at: usize) -> [u8; N]
    requires { at + N ≤ length s.now }
    ensures { result ≡ part s.now at N }
{
    let mut bytes = [0; N];
    bytes.copy_from_slice(&s[at..at + N]);
    bytes
}

// The bytes of a number into `s` from `at` on. So few that the compiler calls nothing for them.
fn put_array<const N: usize>(s: &mut [u8], at: usize, bytes: &[u8; N])
    requires { at + N ≤ length s.old }
    ensures { s.new ≡ splice s.old at bytes.now }
{
    s[at..at + N].copy_from_slice(bytes);
}

// The number in the two bytes of `s` from `at` on.
pub fn get16(s: &[u8], at: usize) -> u16
    requires { at + 2 ≤ length s.now }
    ensures { result ≡ number 2 s.now at }
{
    u16::from_le_bytes(array_at(s, at))
}

// The number in four bytes.
pub fn get32(s: &[u8], at: usize) -> u32
    requires { at + 4 ≤ length s.now }
    ensures { result ≡ number 4 s.now at }
{
    u32::from_le_bytes(array_at(s, at))
}

// The number in eight bytes.
pub fn get64(s: &[u8], at: usize) -> u64
    requires { at + 8 ≤ length s.now }
    ensures { result ≡ number 8 s.now at }
{
    u64::from_le_bytes(array_at(s, at))
}

// `x` in `n` bytes, the lowest first, from `at` on.
pub fn put_number(s: &mut [u8], at: usize, n: usize, x: u64)
    requires { at + n ≤ length s.old }
    ensures { s.new ≡ splice s.old at (bytes_of n x) }
{
    let mut left = x;
    for byte in &mut s[at..at + n] {
        *byte = (left % 256) as u8;
        left /= 256;
    }
}

pub fn put16(s: &mut [u8], at: usize, x: u16)
    requires { at + 2 ≤ length s.old }
    ensures { s.new ≡ splice s.old at (bytes_of 2 x) }
{
    put_array(s, at, &x.to_le_bytes());
}

pub fn put32(s: &mut [u8], at: usize, x: u32)
    requires { at + 4 ≤ length s.old }
    ensures { s.new ≡ splice s.old at (bytes_of 4 x) }
{
    put_array(s, at, &x.to_le_bytes());
}

pub fn put64(s: &mut [u8], at: usize, x: u64)
    requires { at + 8 ≤ length s.old }
    ensures { s.new ≡ splice s.old at (bytes_of 8 x) }
{
    put_array(s, at, &x.to_le_bytes());
}

// The number in four bytes, the highest first: a word of the digest.
pub fn get_big32(s: &[u8], at: usize) -> u32
    requires { at + 4 ≤ length s.now }
    ensures { result ≡ big_number 4 s.now at }
{
    u32::from_be_bytes(array_at(s, at))
}

// `x` in `n` bytes, the highest first, from `at` on: the lowest first, turned round.
pub fn put_big(s: &mut [u8], at: usize, n: usize, x: u64)
    requires { at + n ≤ length s.old }
    ensures { s.new ≡ splice s.old at (big_bytes_of n x) }
{
    put_number(s, at, n, x);
    s[at..at + n].reverse();
}

// `x` in four bytes, the highest first, from `at` on: a word of the digest.
pub fn put_big32(s: &mut [u8], at: usize, x: u32)
    requires { at + 4 ≤ length s.old }
    ensures { s.new ≡ splice s.old at (big_bytes_of 4 x) }
{
    let word = x.to_be_bytes();
    put_array(s, at, &word);
}

// The same in eight bytes: a length in bits.
pub fn put_big64(s: &mut [u8], at: usize, x: u64)
    requires { at + 8 ≤ length s.old }
    ensures { s.new ≡ splice s.old at (big_bytes_of 8 x) }
{
    let length = x.to_be_bytes();
    put_array(s, at, &length);
}

// All of `src` into `dst` from `at` on. By places and not by `copy_from_slice`, whose code calls `memmove`: the archive for C needs no such name from outside.
pub fn copy(dst: &mut [u8], at: usize, src: &[u8])
    requires { at + length src.now ≤ length dst.old }
    ensures { dst.new ≡ splice dst.old at src.now }
{
    for (i, byte) in src.iter().enumerate() {
        dst[at + i] = *byte;
    }
}

// `n` zeros into `dst` from `at` on.
pub fn clear(dst: &mut [u8], at: usize, n: usize)
    requires { at + n ≤ length dst.old }
    ensures { dst.new ≡ splice dst.old at (zeros n) }
{
    dst[at..at + n].fill(0);
}

// Whether every byte is zero. No byte ends the fold early, so that the compiler looks at sixteen together: nearly every slice asked about is zero.
pub fn is_zero(s: &[u8]) -> bool
    ensures { result ≡ all_zero s.now }
{
    s.iter().fold(true, |good, byte| good & (*byte == 0))
}

// Whether `a` and `b` hold the same bytes.
pub fn same(a: &[u8], b: &[u8]) -> bool
    ensures { result ≡ spec.same a.now b.now }
{
    a == b
}
