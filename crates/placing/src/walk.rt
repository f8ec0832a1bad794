// The height that each block goes to: one walk over the blocks by rising id, each to the lowest bucket on its way that has room.
ghost use Rattle.std.specs.Prelude.{◌≡◌, ◌+◌, ◌≤◌, ◌<◌, length, get_or, take};
ghost use Rattle.words.specs.Bytes.{zeros};
ghost use Rattle.sizes.specs.Sizes.{InRange, most_height};
ghost use Rattle.placing.specs.Walk as spec;
ghost use Rattle.placing.specs.Bank.{most_blocks, blocks_at, Inside};

use sizes::Sizes;

// A height for each level, and one for what remains.
pub const HEIGHTS: usize = Sizes::MOST_HEIGHT + 2;

// The height of the first bucket, from the leaf up, that lies on the way to leaf `x` and has room; one more than the root's where none has. Two ways
// have a bucket in common where what is left of their leaves, halved once for each height, is the same.
fn seek(used: &[usize; HEIGHTS], x: usize, s: Sizes, leaf: usize) -> usize
    requires { s.height ≤ most_height }
    ensures { (result ≡ spec.seek (spec.has_room s leaf used.now x) (s.height + 1) 0) × (result < spec.most_heights) }
{
    let n = s.height + 1;
    let mut a = x;
    let mut b = leaf;
    for h in 0..n {
        if (a == b) & (used[h] < s.slots) {
            return h;
        }
        a = a / 2;
        b = b / 2;
    }
    n
}

// The heights of the blocks in `places`, and how many of them remain.
pub fn assign(bank: &[u8], places: &[u16], s: Sizes, leaf: usize, at: &mut [u8]) -> usize
    requires in_range { InRange s × Inside bank.now places.now }
    requires places_in_bounds { (length places.now ≤ length at.old) × (length places.now ≤ most_blocks) }
    ensures at_after { take (length places.now) at.new ≡ spec.given s leaf (zeros spec.most_heights) (blocks_at bank.now places.now) }
    ensures value { result ≡ get_or (spec.used_in s leaf (zeros spec.most_heights) (blocks_at bank.now places.now)) (s.height + 1) 0 }
{
    let mut used = [0usize; HEIGHTS];
    for (i, place) in places.iter().enumerate() {
        let x = words::get16(bank, Sizes::SLOT * usize::from(*place) + Sizes::LEAF_IN);
        let h = seek(&used, usize::from(x), s, leaf);
        used[h] += 1;
        at[i] = h as u8;
    }
    let above = s.height + 1;
    used[above]
}
