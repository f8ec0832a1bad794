// Five blocks at once: four side by side, which the compiler turns into vector code, and a fifth beside them for the processor's scalar
// units, in one loop over the rounds.
ghost use Rattle.std.specs.Prelude.{◌≡◌, ◌+◌, ◌≤◌};
ghost use Rattle.chacha20.specs.ChaCha.{rounds, blocks};
ghost use Rattle.chacha20.specs.Lanes as spec;

use crate::{BLOCK, FIVE, WORDS, block};
use std::array;

// How many words four states have, and how many states; where their second, third and fourth rows begin; and one, two and three columns of a row.
const WIDE: usize = 64;

const LANES: usize = 4;

const SECOND: usize = 16;

const THIRD: usize = 32;

const FOURTH: usize = 48;

const ONE: usize = 4;

const TWO: usize = 8;

const THREE: usize = 12;

// A column round. One loop over the whole rows: shorter ones would be unrolled before the compiler looks for vectors.
fn sweep(s: &mut [u32; WIDE])
    ensures { s.new ≡ spec.swept 16 s.old }
{
    for i in 0..WORDS {
        block::quarter_at(s, i, SECOND + i, THIRD + i, FOURTH + i);
    }
}

// The row at `row` turned by `by` words.
fn turn(s: &mut [u32; WIDE], row: usize, by: usize)
    requires { (row + 16 ≤ 64) × (by ≤ 16) }
    ensures { s.new ≡ spec.turn row by s.old }
{
    let t = *s;
    for i in 0..WORDS {
        s[row + i] = t[row + (i + by) % WORDS];
    }
}

// The diagonals become columns, by one column, two and three; with three and one they go back.
fn turns(s: &mut [u32; WIDE], b: usize, d: usize)
    requires { (b ≤ 16) × (d ≤ 16) }
    ensures { s.new ≡ spec.turns b d s.old }
{
    turn(s, SECOND, b);
    turn(s, THIRD, TWO);
    turn(s, FOURTH, d);
}

fn inner_four(s: &mut [u32; WIDE])
    ensures { s.new ≡ spec.inner_four s.old }
{
    sweep(s);
    turns(s, ONE, THREE);
    sweep(s);
    turns(s, THREE, ONE);
}

fn rounds_five(s: &mut [u32; WIDE], o: &mut [u32; WORDS])
    ensures { (s.new ≡ spec.rounds_four 10 s.old) × (o.new ≡ rounds 10 o.old) }
{
    for _ in 0..block::BOTH {
        inner_four(s);
        block::inner(o);
    }
}

// Each word of `s` four times.
fn spread(s: &[u32; WORDS]) -> [u32; WIDE]
    ensures { result ≡ spec.spread s.now }
{
    array::from_fn(|i| s[i / LANES])
}

// The block counter is word 12: the second block has it at 49, the third at 50, the fourth at 51.
fn initial_four(key: &[u8; 32], nonce: &[u8; 12], n: u32) -> [u32; WIDE]
    ensures { result ≡ spec.initial_four key.now nonce.now n }
{
    let s = block::initial(key, nonce, n);
    let mut t = spread(&s);
    t[49] = n.wrapping_add(1);
    t[50] = n.wrapping_add(2);
    t[51] = n.wrapping_add(3);
    t
}

fn bytes_of_five(u: &[u32; WIDE], p: &[u32; WORDS]) -> [u8; FIVE]
    ensures { result ≡ spec.bytes_of_five u.now p.now }
{
    let mut out = [0u8; FIVE];
    for k in 0..LANES {
        block::serialize(&mut out, BLOCK * k, u, k, LANES);
    }
    block::serialize(&mut out, BLOCK * LANES, p, 0, 1);
    out
}

pub fn five(key: &[u8; 32], nonce: &[u8; 12], n: u32) -> [u8; FIVE]
    ensures { result ≡ blocks key.now nonce.now n 5 }
{
    let t = initial_four(key, nonce, n);
    let o = block::initial(key, nonce, n.wrapping_add(4));
    let mut u = t;
    let mut p = o;
    rounds_five(&mut u, &mut p);
    block::sums(&mut p, &o);
    block::sums(&mut u, &t);
    bytes_of_five(&u, &p)
}
