// A hash in the making: bytes go in part by part, so that a caller copies none of them together.
ghost use Rattle.std.specs.Prelude.{◌≡◌, ℕ, ◌+◌, ◌/◌, ◌%◌, ◌<◌, ◌≤◌, List, [], length};
ghost use Rattle.digest_sha2.specs.Sha2.{after};
ghost use Rattle.digest_sha2.specs.Sha256.{v256, sha256};
ghost use Rattle.sha256.specs.Stream.{Holds, Grown};

use crate::BLOCK;
use crate::padding::{begun, bytes_of, last, last_blocks};
use crate::rounds::compress;
use digest_sha2::constants256::initial;
use words::copy;

// The hash value after the whole blocks so far, a block that begins with the bytes left over, and how many bytes in all, modulo 2 ^ 64.
#[derive(Clone, Copy, Drop)]
pub struct Hasher {
    state: [u32; 8],
    block: [u8; 64],
    total: u64,
}

impl Hasher {
    pub fn new() -> Self
        ensures { Holds result [] }
    {
        Hasher {
            state: initial(),
            block: [0; 64],
            total: 0,
        }
    }

    // The bytes of `part` besides: to the end of the block that is begun, whole blocks, and the rest.
    pub fn absorb(self, part: &[u8]) -> Self
        ensures { Grown self part.now result }
    {
        let (front, rest) = part.split_at(head(self.total, part.len()));
        let mut h = self;
        h.little(front);
        if rest.is_empty() {
            return h;
        }
        let (middle, end) = rest.split_at(rest.len() / BLOCK * BLOCK);
        h.whole(middle);
        h.little(end);
        h
    }

    // Some bytes more, no more than the block has room for.
    fn little(&mut self, part: &[u8])
        requires { self.old.total % 64 + length part.now ≤ 64 }
        ensures { Grown self.old part.now self.new }
    {
        let at = begun(self.total);
        copy(&mut self.block, at, part);
        self.total = self.total.wrapping_add(part.len() as u64);
        if at + part.len() == BLOCK {
            self.state = blocks(self.state, &self.block);
        }
    }

    // Whole blocks more, where no block is begun.
    fn whole(&mut self, part: &[u8])
        requires total_value { self.old.total % 64 ≡ 0 }
        requires part_len { length part.now % 64 ≡ 0 }
        ensures { Grown self.old part.now self.new }
    {
        self.state = blocks(self.state, part);
        self.total = self.total.wrapping_add(part.len() as u64);
    }

    // Its arrays would lie in the frames of its callers, below the rounds: not inlined, they are gone again when the rounds are made.
    #[inline(never)]
    pub fn finish(self) -> [u8; 32]
        ensures { (bs : List ℕ) → Holds self bs → result ≡ sha256 bs }
    {
        let mut p = [0u8; 128];
        last(&mut p, &self.block[..begun(self.total)], self.total);
        bytes_of(blocks(self.state, &p[..BLOCK * last_blocks(self.total)]))
    }
}

// How many bytes of a part of `len` go to the block that is begun: as many as there are, or as it has room for.
fn head(total: u64, len: usize) -> usize
    ensures upper_bound { result ≤ len }
    ensures result_bound { total % 64 + result ≤ 64 }
    ensures result_value { result < len → (total + result) % 64 ≡ 0 }
{
    let at = begun(total);
    if at == 0 {
        return 0;
    }
    len.min(BLOCK - at)
}

// The hash value after the blocks of `part`.
fn blocks(start: [u32; 8], part: &[u8]) -> [u32; 8]
    requires { length part.now % 64 ≡ 0 }
    ensures { result ≡ after v256 start (length part.now / 64) part.now }
{
    part.chunks_exact(BLOCK).fold(start, compress)
}
