// RFC 8439, 2.1 to 2.3: the quarter round, the rounds, and the block function.
ghost use Rattle.std.specs.Prelude.{◌≡◌, ◌+◌, ◌*◌, ◌<◌, ◌≤◌, length};
ghost use Rattle.words.specs.Bytes.{splice};
ghost use Rattle.chacha20.specs.ChaCha as spec;
ghost use Rattle.chacha20.specs.Lanes.{lane};

use crate::{BLOCK, Quad, WORDS};

// Column and diagonal rounds, ten of each.
pub const BOTH: usize = 10;

// Half of a quarter round: RFC 8439's + is `wrapping_add`, its <<< `rotate_left`.
fn half(q: Quad, j: u32, k: u32) -> Quad
    requires { ((0 < j) × (j < 32)) × ((0 < k) × (k < 32)) }
    ensures { result ≡ spec.half q j k }
{
    let a = q.a.wrapping_add(q.b);
    let d = (q.d ^ a).rotate_left(j);
    let c = q.c.wrapping_add(d);
    let b = (q.b ^ c).rotate_left(k);
    Quad { a, b, c, d }
}

fn quarter(q: Quad) -> Quad
    ensures { result ≡ spec.quarter q }
{
    half(half(q, 16, 12), 8, 7)
}

pub fn quarter_at(s: &mut [u32], a: usize, b: usize, c: usize, d: usize)
    requires { ((a < length s.old) × (b < length s.old)) × ((c < length s.old) × (d < length s.old)) }
    ensures { s.new ≡ spec.quarter_at s.old a b c d }
{
    let q = quarter(Quad {
        a: s[a],
        b: s[b],
        c: s[c],
        d: s[d],
    });
    s[a] = q.a;
    s[b] = q.b;
    s[c] = q.c;
    s[d] = q.d;
}

// As the RFC writes them, one by one: a loop over i would have to compute places such as 4 + (i + 1) % 4.
fn columns(s: &mut [u32; WORDS])
    ensures { s.new ≡ spec.columns s.old }
{
    quarter_at(s, 0, 4, 8, 12);
    quarter_at(s, 1, 5, 9, 13);
    quarter_at(s, 2, 6, 10, 14);
    quarter_at(s, 3, 7, 11, 15);
}

fn diagonals(s: &mut [u32; WORDS])
    ensures { s.new ≡ spec.diagonals s.old }
{
    quarter_at(s, 0, 5, 10, 15);
    quarter_at(s, 1, 6, 11, 12);
    quarter_at(s, 2, 7, 8, 13);
    quarter_at(s, 3, 4, 9, 14);
}

pub fn inner(s: &mut [u32; WORDS])
    ensures { s.new ≡ spec.inner s.old }
{
    columns(s);
    diagonals(s);
}

fn rounds(s: &mut [u32; WORDS])
    ensures { s.new ≡ spec.rounds 10 s.old }
{
    for _ in 0..BOTH {
        inner(s);
    }
}

pub fn initial(key: &[u8; 32], nonce: &[u8; 12], n: u32) -> [u32; WORDS]
    ensures { result ≡ spec.initial key.now nonce.now n }
{
    [
        0x61707865,
        0x3320646e,
        0x79622d32,
        0x6b206574,
        words::get32(key, 0),
        words::get32(key, 4),
        words::get32(key, 8),
        words::get32(key, 12),
        words::get32(key, 16),
        words::get32(key, 20),
        words::get32(key, 24),
        words::get32(key, 28),
        n,
        words::get32(nonce, 0),
        words::get32(nonce, 4),
        words::get32(nonce, 8),
    ]
}

// The words of `s`, each with the one of `t` at its place added.
pub fn sums(s: &mut [u32], t: &[u32])
    requires { length s.old ≤ length t.now }
    ensures { s.new ≡ spec.zipped spec.add32 s.old t.now }
{
    for (i, x) in s.iter_mut().enumerate() {
        *x = x.wrapping_add(t[i]);
    }
}

// The sixteen words of a block, which stand `step` apart in `s`, as bytes of `out` from `at` on.
pub fn serialize(out: &mut [u8], at: usize, s: &[u32], k: usize, step: usize)
    requires { (at + 64 ≤ length out.old) × ((k < step) × (16 * step ≤ length s.now)) }
    ensures { out.new ≡ splice out.old at (spec.serialize (lane step k s.now)) }
{
    for w in 0..WORDS {
        words::put32(out, at + w * 4, s[w * step + k]);
    }
}

pub fn block(key: &[u8; 32], nonce: &[u8; 12], n: u32) -> [u8; BLOCK]
    ensures { result ≡ spec.block key.now nonce.now n }
{
    let s = initial(key, nonce, n);
    let mut t = s;
    rounds(&mut t);
    sums(&mut t, &s);
    let mut out = [0u8; BLOCK];
    serialize(&mut out, 0, &t, 0, 1);
    out
}
