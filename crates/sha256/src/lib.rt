// SHA-256 (FIPS 180-4) of a list of bytes, at once by `digest` or part by part by a `Hasher`. The standard's definitions are those of crate
// digest_sha2. The length field is the bit length modulo 2 ^ 64: the standard's wherever it speaks, which is below that. Assumes nothing.
#![tactic(auto)]

ghost use Rattle.std.specs.Prelude.{◌≡◌};
ghost use Rattle.digest_sha2.specs.Sha256.{sha256};

mod padding;
mod rounds;
mod schedule;
mod stream;

pub use stream::Hasher;

// Bytes of a word and of a block, words of a block.
const WORD: usize = 4;

const BLOCK: usize = 64;

const WORDS: usize = 16;

// The last of the turns of sixteen rounds, counted from 0, and how many rounds of it are made at once.
const LAST: usize = 3;

const FEW: usize = 4;

pub fn digest(msg: &[u8]) -> [u8; 32]
    ensures { result ≡ sha256 msg.now }
{
    Hasher::new().absorb(msg).finish()
}
