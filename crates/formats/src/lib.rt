// Format: writes a good desk, whatever the buffer held before, or refuses and changes nothing.
#![tactic(auto)]

ghost use Rattle.std.specs.Prelude.{◌≡◌, ◌+◌, ◌≤◌, length};
ghost use Rattle.words.specs.Bytes.{splice};
ghost use Rattle.sizes.specs.Sizes.{d_len};
ghost use Rattle.formats.specs.Format.{are_leaves, format_checked, head_bytes, unmarked, formatted, format_of, format_result};
ghost use Rattle.formats.specs.Fits.{Fits};

use desk::{Shape, Status};
use sizes::{Refusal, Sizes};

// Whether every starting leaf is below `most`.
fn are_leaves(leaves: &[u16], most: usize) -> bool
    ensures { result ≡ are_leaves most leaves.now }
{
    leaves.iter().all(|leaf| usize::from(*leaf) < most)
}

// The refusals of format, in order.
fn format_checked(
    desk: &[u8],
    height: u8,
    slots: u8,
    stash: u8,
    ids: u16,
    key: &[u8],
    leaves: &[u16],
) -> Result<(), Refusal>
    ensures { result ≡ format_checked desk.now height slots stash ids key.now leaves.now }
{
    let sizes = Sizes::of(height, slots);
    let n = ids as usize;
    let in_range = sizes.good() & desk::ids_good(n);
    if !in_range {
        return Err(Refusal::BadSize);
    }
    let fit = (desk.len() == Shape::new(ids, stash).len())
        & (leaves.len() == n)
        & (key.len() == desk::KEY);
    if !fit {
        return Err(Refusal::BadLength);
    }
    if !are_leaves(leaves, sizes.leaves()) {
        return Err(Refusal::BadLeaf);
    }
    Ok(())
}

// Body (a) of a new desk.
fn head_bytes(height: u8, slots: u8, stash: u8, ids: u16) -> [u8; desk::A_LEN]
    ensures { result ≡ head_bytes height slots stash ids }
{
    let [low, high] = ids.to_le_bytes();
    [
        height,
        slots,
        stash,
        u8::from(Status::Ready),
        0,
        0,
        low,
        high,
    ]
}

// Body (d) of a new desk, at `at`.
fn put_places(dst: &mut [u8], at: usize, leaves: &[u16])
    requires { at + d_len (length leaves.now) ≤ length dst.old }
    ensures { dst.new ≡ splice dst.old at (unmarked leaves.now) }
{
    for (i, leaf) in leaves.iter().enumerate() {
        desk::put_place(dst, at + desk::PLACE * i, *leaf, 0);
    }
}

// Writes a new desk: contents, then the bodies one after another.
fn write_desk(
    desk: &mut [u8],
    height: u8,
    slots: u8,
    stash: u8,
    ids: u16,
    key: &[u8],
    leaves: &[u16],
)
    requires { Fits desk.old stash ids key.now leaves.now }
    ensures { desk.new ≡ formatted height slots stash ids key.now leaves.now }
{
    let h = Shape::new(ids, stash);
    let c_at = h.c_at();
    let d_at = h.d_at();
    let e_at = h.e_at();
    let head = head_bytes(height, slots, stash, ids);
    desk::put_contents(desk, h);
    words::copy(desk, desk::A_AT, &head);
    words::copy(desk, desk::B_AT, key);
    words::clear(desk, desk::ROOT, Sizes::DIGEST);
    words::clear(desk, c_at, d_at - c_at);
    put_places(desk, d_at, leaves);
    words::clear(desk, e_at, desk.len() - e_at);
}

pub fn format(
    desk: &mut [u8],
    height: u8,
    slots: u8,
    stash: u8,
    ids: u16,
    key: &[u8],
    leaves: &[u16],
) -> Result<(), Refusal>
    ensures { format_result result desk.new ≡ format_of desk.old height slots stash ids key.now leaves.now }
{
    format_checked(desk, height, slots, stash, ids, key, leaves)?;
    write_desk(desk, height, slots, stash, ids, key, leaves);
    Ok(())
}
