// ChaCha20 (RFC 8439): bytes combined with a keystream of 64-byte blocks from block counter 0. Blocks are made one at a time, or five
// at once where a text is long enough to need them. The definitions are in specs/, the laws that a caller needs in proofs/Cipher.antt.
#![tactic(auto)]

ghost use Rattle.std.specs.Prelude.{◌≡◌, ◌≤◌, length, bit_xor};
ghost use Rattle.chacha20.specs.ChaCha as spec;

mod block;
mod five;

// How many bytes a block has, and two of them, and five.
const BLOCK: usize = 64;

const TWO: usize = 128;

const FIVE: usize = 320;

// How many words the state has.
const WORDS: usize = 16;

// Four words of the state.
#[derive(Clone, Copy, Drop)]
struct Quad {
    a: u32,
    b: u32,
    c: u32,
    d: u32,
}

// The bytes of `part`, each combined with the one of `ks` at its place. By places: of what a zip with `iter_mut` leaves, a proof knows the
// length alone. Not one function with `block::sums`, which adds words: that would be this loop again, and a closure for each.
fn mix(part: &mut [u8], ks: &[u8])
    requires { length part.old ≤ length ks.now }
    ensures { part.new ≡ spec.zipped bit_xor part.old ks.now }
{
    for (i, x) in part.iter_mut().enumerate() {
        *x ^= ks[i];
    }
}

// The bytes of `part` combined with the blocks from n on, five at once. Not inlined, nor is `mix_two`: the arrays of both would lie in one frame,
// of more bytes than tests/stack/limits leaves.
#[inline(never)]
fn mix_five(key: &[u8; 32], nonce: &[u8; 12], n: u32, part: &mut [u8])
    requires { length part.old ≤ 320 }
    ensures { part.new ≡ spec.zipped bit_xor part.old (spec.blocks key.now nonce.now n 5) }
{
    mix(part, &five::five(key, nonce, n));
}

// The same one by one, where there are at most two: five at once would cost more.
#[inline(never)]
fn mix_two(key: &[u8; 32], nonce: &[u8; 12], n: u32, part: &mut [u8])
    requires { length part.old ≤ 128 }
    ensures { part.new ≡ spec.zipped bit_xor part.old (spec.blocks key.now nonce.now n 5) }
{
    let mut next = n;
    for at in (0..part.len()).step_by(BLOCK) {
        let len = BLOCK.min(part.len() - at);
        mix(&mut part[at..at + len], &block::block(key, nonce, next));
        next = next.wrapping_add(1);
    }
}

// The bytes of `part`, at most five blocks, combined with the blocks from n on.
fn mix_blocks(key: &[u8; 32], nonce: &[u8; 12], n: u32, part: &mut [u8])
    requires { length part.old ≤ 320 }
    ensures { part.new ≡ spec.zipped bit_xor part.old (spec.blocks key.now nonce.now n 5) }
{
    if TWO < part.len() {
        mix_five(key, nonce, n, part);
    } else {
        mix_two(key, nonce, n, part);
    }
}

// The bytes of `text` combined with the keystream, in place: enciphered where they were plain, and deciphered where not. By places: of what
// `chunks_mut` leaves, a proof knows the length alone.
pub fn apply(key: &[u8; 32], nonce: &[u8; 12], text: &mut [u8])
    ensures { text.new ≡ spec.cipher key.now nonce.now text.old }
{
    let mut n = 0u32;
    for at in (0..text.len()).step_by(FIVE) {
        let len = FIVE.min(text.len() - at);
        mix_blocks(key, nonce, n, &mut text[at..at + len]);
        n = n.wrapping_add(5);
    }
}
