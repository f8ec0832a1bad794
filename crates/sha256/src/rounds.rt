// The rounds and the compression of a block, section 6.2.2 steps 2 to 4, sixteen rounds a turn. Each word of the schedule is made between two
// rounds: the processor then makes it while it waits for a round's sums.
ghost use Rattle.std.specs.Prelude.{◌≡◌, ℕ, ◌+◌, ◌<◌, ◌≤◌, List, length, slice_index};
ghost use Rattle.words.specs.Bytes.{part};
ghost use Rattle.digest_sha2.specs.Sha2.{round, run, add_all, compress, extend};
ghost use Rattle.digest_sha2.specs.Turns.{Follows, Window, Reached};
ghost use Rattle.digest_sha2.specs.Sha256.{v256, K256};

use crate::schedule::{load, renew};
use crate::{FEW, LAST, WORDS};
use digest_sha2::constants256::constants;
use digest_sha2::functions32::{big0, big1, ch, maj};
use std::array;

// One round, with its constant and its word.
pub fn round(s: [u32; 8], k: u32, w: u32) -> [u32; 8]
    ensures { result ≡ round v256 s k w }
{
    let [a, b, c, d, e, f, g, h] = s;
    let t1 = h
        .wrapping_add(big1(e))
        .wrapping_add(ch(e, f, g))
        .wrapping_add(k)
        .wrapping_add(w);
    let t2 = big0(a).wrapping_add(maj(a, b, c));
    [t1.wrapping_add(t2), a, b, c, d.wrapping_add(t1), e, f, g]
}

// Round i of the turn whose sixteen constants are k: where s is the state after t + i rounds, and word i the schedule's, the result is the
// state after one round more.
pub fn step(s: [u32; 8], k: &[u32; 16], w: &[u32; 16], i: usize) -> [u32; 8]
    requires i_bound { i < 16 }
    requires k_len { length k.now ≡ 16 }
    requires w_len { length w.now ≡ 16 }
    ensures { (ws s₀ : List ℕ) (t : ℕ) → k.now ≡ part K256 t 16 → slice_index w.now i ≡ slice_index ws (t + i) → s ≡ run v256 ws (t + i) s₀ → result ≡ run v256 ws (t + (i + 1)) s₀ }
{
    round(s, k[i], w[i])
}

// The same, and word i is overwritten after it.
pub fn step_on(s: [u32; 8], k: &[u32; 16], w: &mut [u32; 16], i: usize) -> [u32; 8]
    requires i_bound { i < 16 }
    requires k_len { length k.now ≡ 16 }
    requires w_len { length w.old ≡ 16 }
    ensures w_len_2 { length w.new ≡ 16 }
    ensures by_index { (ws s₀ : List ℕ) (t : ℕ) → Follows v256 ws → t + 32 ≤ 64 → k.now ≡ part K256 t 16 → Reached v256 ws s₀ t i s w.old → Reached v256 ws s₀ t (i + 1) result w.new }
{
    let r = step(s, k, w, i);
    renew(w, i);
    r
}

// Sixteen rounds, and the words of the next turn. The places are written out, so that the compiler computes none of them: as a loop over i it
// was 14 % slower (8 KB, both in one process in turns). It is called at one place, so that it is inlined and the state stays in registers.
pub fn turn(s: &mut [u32; 8], k: &[u32; 16], w: &mut [u32; 16])
    requires k_len { length k.now ≡ 16 }
    requires w_len { length w.old ≡ 16 }
    ensures w_len_2 { length w.new ≡ 16 }
    ensures by_index { (ws s₀ : List ℕ) (t : ℕ) → Follows v256 ws → t + 32 ≤ 64 → k.now ≡ part K256 t 16 → Reached v256 ws s₀ t 0 s.old w.old → Reached v256 ws s₀ (t + 16) 0 s.new w.new }
{
    let s0 = *s;
    let s1 = step_on(s0, k, w, 0);
    let s2 = step_on(s1, k, w, 1);
    let s3 = step_on(s2, k, w, 2);
    let s4 = step_on(s3, k, w, 3);
    let s5 = step_on(s4, k, w, 4);
    let s6 = step_on(s5, k, w, 5);
    let s7 = step_on(s6, k, w, 6);
    let s8 = step_on(s7, k, w, 7);
    let s9 = step_on(s8, k, w, 8);
    let s10 = step_on(s9, k, w, 9);
    let s11 = step_on(s10, k, w, 10);
    let s12 = step_on(s11, k, w, 11);
    let s13 = step_on(s12, k, w, 12);
    let s14 = step_on(s13, k, w, 13);
    let s15 = step_on(s14, k, w, 14);
    let s16 = step_on(s15, k, w, 15);
    *s = s16;
}

// Four rounds of the last turn, from round i of it on. One at a time was 4 % slower.
pub fn four(s: [u32; 8], k: &[u32; 16], w: &[u32; 16], i: usize) -> [u32; 8]
    requires i_bound { i + 4 ≤ 16 }
    requires k_len { length k.now ≡ 16 }
    requires w_len { length w.now ≡ 16 }
    ensures { (ws s₀ : List ℕ) (t : ℕ) → k.now ≡ part K256 t 16 → Window ws w.now t 0 → s ≡ run v256 ws (t + i) s₀ → result ≡ run v256 ws (t + (i + 4)) s₀ }
{
    let a = step(s, k, w, i);
    let b = step(a, k, w, i + 1);
    let c = step(b, k, w, i + 2);
    step(c, k, w, i + 3)
}

// The last sixteen rounds, which need no word after them.
pub fn last_turn(start: [u32; 8], k: &[u32; 16], w: &[u32; 16]) -> [u32; 8]
    requires k_len { length k.now ≡ 16 }
    requires w_len { length w.now ≡ 16 }
    ensures { (ws s₀ : List ℕ) (t : ℕ) → k.now ≡ part K256 t 16 → Reached v256 ws s₀ t 0 start w.now → result ≡ run v256 ws (t + 16) s₀ }
{
    let mut s = start;
    for i in (0..WORDS).step_by(FEW) {
        let after = four(s, k, w, i);
        s = after;
    }
    s
}

// All rounds, with the words of the block in w.
pub fn rounds(start: [u32; 8], w: &mut [u32; 16]) -> [u32; 8]
    requires { length w.old ≡ 16 }
    ensures { result ≡ run v256 (extend v256 48 w.old) 64 start }
{
    let mut s = start;
    for row in 0..LAST {
        turn(&mut s, &constants(row), w);
    }
    last_turn(s, &constants(LAST), w)
}

pub fn add_all(s: [u32; 8], t: [u32; 8]) -> [u32; 8]
    ensures { result ≡ add_all 32 s t }
{
    array::from_fn(|i| s[i].wrapping_add(t[i]))
}

// The hash value after one block more.
pub fn compress(s: [u32; 8], b: &[u8]) -> [u32; 8]
    requires { length b.now ≡ 64 }
    ensures { result ≡ compress v256 s b.now }
{
    let mut w = load(b);
    add_all(s, rounds(s, &mut w))
}
