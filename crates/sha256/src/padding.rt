// What follows the whole blocks of a message, section 5.1.1: the bytes left over and the padding, one block or two. And a hash value as bytes.
ghost use Rattle.std.specs.Prelude.{◌≡◌, ◌+◌, ◌-◌, ◌*◌, ◌%◌, ◌<◌, ◌≤◌, ◌++◌, length, take};
ghost use Rattle.words.specs.Bytes.{zeros};
ghost use Rattle.digest_sha2.specs.Sha2.{all_bytes, padding};
ghost use Rattle.digest_sha2.specs.Sha256.{v256};

use crate::{BLOCK, WORD};
use words::{copy, put_big32, put_big64};

// Bytes of the length field, and the bit 1 that comes first, in its byte.
const LENGTH: usize = 8;

const ONE: u8 = 0x80;

// How many bytes of a block are left over after `total`. By a cast: `usize::try_from` would ask what to do with an Err that never comes.
pub fn begun(total: u64) -> usize
    ensures { result ≡ total % 64 }
{
    (total % (BLOCK as u64)) as usize
}

// How many blocks the last ones are, after `total` bytes.
pub fn last_blocks(total: u64) -> usize
    ensures result_value { 64 * result ≡ total % 64 + length (padding v256 total) }
    ensures upper_bound { result ≤ 2 }
{
    if begun(total) < BLOCK - LENGTH { 1 } else { 2 }
}

// The last blocks, after `total` bytes of which `left` are left over, written over zeros.
pub fn last(p: &mut [u8; 128], left: &[u8], total: u64)
    requires p_value { p.old ≡ zeros 128 }
    requires left_len { length left.now ≡ total % 64 }
    ensures p_len { length p.new ≡ 128 }
    ensures p_after { take (total % 64 + length (padding v256 total)) p.new ≡ left.now ++ padding v256 total }
{
    copy(p, 0, left);
    p[left.len()] = ONE;
    let n = last_blocks(total);
    // a byte has eight bits, and bits past the 64th are left out
    put_big64(p, BLOCK * n - LENGTH, total << 3);
}

pub fn bytes_of(s: [u32; 8]) -> [u8; 32]
    ensures { result ≡ all_bytes 4 s }
{
    let mut d = [0u8; 32];
    for (i, x) in s.iter().enumerate() {
        put_big32(&mut d, WORD * i, *x);
    }
    d
}
