// When body (d) is good. Forty-eight places at once are held to the highest good place, byte by byte, which the compiler does sixteen bytes at a step; where a
// byte is above, each place is looked at by itself.
ghost use Rattle.std.specs.Prelude.{◌≡◌, true, ◌+◌, ◌*◌, ◌≤◌, ◌<◌, length};
ghost use Rattle.words.specs.Bytes.{part};
ghost use Rattle.sizes.specs.Sizes.{place_len, d_len};
ghost use Rattle.desk.specs.Layout.{mark_in};
ghost use Rattle.desk.specs.Good.{place_good, places_good};
ghost use Rattle.desk.specs.Together.{together, together_len, none_above};

use super::leaves::Leaves;

const TOGETHER: usize = 48;

const BYTES: usize = super::PLACE * TOGETHER;

// Whether the place of number `i`, from 0 on, holds a leaf and a mark.
fn place_good(d: &[u8], i: usize, most: Leaves) -> bool
    requires { place_len * i + mark_in < length d.now }
    ensures { result ≡ place_good most d.now i }
{
    let at = super::PLACE * i;
    most.has(words::get16(d, at)) & (d[at + super::MARK_IN] <= 1)
}

// The highest place, with the last leaf and a mark, forty-eight times: so often that the compiler keeps the loop over them. That they are good places is
// all that is asked of them: lower ones would send more places to be looked at one by one, and no answer would change.
fn highest(most: Leaves) -> [u8; BYTES]
    ensures { places_good most together result ≡ true }
{
    let last = most.last();
    let mut top = [0u8; BYTES];
    for i in 0..TOGETHER {
        super::put_place(&mut top, super::PLACE * i, last, 1);
    }
    top
}

// Whether no byte is above the one at its place in `top`. No byte ends the loop early, so that the compiler compares sixteen together.
fn none_above(d: &[u8], top: &[u8; BYTES]) -> bool
    requires { (length d.now ≡ together_len) × (length top.now ≡ together_len) }
    ensures { result ≡ none_above d.now top.now }
{
    let mut good = true;
    for (byte, most) in d.iter().zip(top) {
        good &= byte <= most;
    }
    good
}

// Whether forty-eight places from `i` on are among the first `n`, and none of their bytes is above.
fn low(d: &[u8], i: usize, n: usize, top: &[u8; BYTES]) -> bool
    requires { (d_len n ≤ length d.now) × ((i < n) × (length top.now ≡ together_len)) }
    ensures { result ≡ true → (i + together ≤ n) × (none_above (part d.now (place_len * i) together_len) top.now ≡ true) }
{
    if n - i < TOGETHER {
        return false;
    }
    let a = super::PLACE * i;
    let e = a + BYTES;
    none_above(&d[a..e], top)
}

// Whether the first `n` places are good. Not a `for`: the walk goes on by forty-eight places or by one.
pub fn places_good(d: &[u8], n: usize, most: Leaves) -> bool
    requires { d_len n ≤ length d.now }
    ensures { result ≡ places_good most n d.now }
{
    let top = highest(most);
    let mut i = 0;
    while i < n {
        if low(d, i, n, &top) {
            i += TOGETHER;
            continue;
        }
        if !place_good(d, i, most) {
            return false;
        }
        i += 1;
    }
    true
}
