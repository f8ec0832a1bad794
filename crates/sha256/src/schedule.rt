// The message schedule, section 6.2.2 step 1, in sixteen words: those of the block at first, and each word, once its round is made, overwritten
// by the one sixteen further on.
ghost use Rattle.std.specs.Prelude.{◌≡◌, ℕ, ◌+◌, ◌<◌, ◌≤◌, List, length, slice_index};
ghost use Rattle.words.specs.Bytes.{part};
ghost use Rattle.digest_sha2.specs.Sha2.{words_of};
ghost use Rattle.digest_sha2.specs.Turns.{Follows, Window};
ghost use Rattle.digest_sha2.specs.Sha256.{v256};

use crate::{WORD, WORDS};
use digest_sha2::functions32::{small0, small1};
use words::get_big32;

// The sixteen words of a block.
pub fn load(b: &[u8]) -> [u32; 16]
    requires { length b.now ≡ 64 }
    ensures { result ≡ words_of 4 16 b.now }
{
    let mut w = [0u32; 16];
    for (t, x) in w.iter_mut().enumerate() {
        *x = get_big32(b, WORD * t);
    }
    w
}

// The word sixteen after the one at place i, where those before it are overwritten already.
pub fn next(w: &[u32; 16], i: usize) -> u32
    requires i_bound { i < 16 }
    requires w_len { length w.now ≡ 16 }
    ensures { (ws : List ℕ) (t : ℕ) → Follows v256 ws → t + i + 16 < 64 → Window ws w.now t i → result ≡ slice_index ws (t + i + 16) }
{
    small1(w[(i + 14) % WORDS])
        .wrapping_add(w[(i + 9) % WORDS])
        .wrapping_add(small0(w[(i + 1) % WORDS]))
        .wrapping_add(w[i])
}

// That word in the place of the one at i.
pub fn renew(w: &mut [u32; 16], i: usize)
    requires i_bound { i < 16 }
    requires w_len { length w.old ≡ 16 }
    ensures w_len_2 { length w.new ≡ 16 }
    ensures by_index { (ws : List ℕ) (t : ℕ) → Follows v256 ws → t + i + 16 < 64 → Window ws w.old t i → Window ws w.new t (i + 1) }
{
    w[i] = next(w, i);
}
