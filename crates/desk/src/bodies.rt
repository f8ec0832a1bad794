// When the bodies (c), (d) and (e) of a desk are good, under the sizes and the status of body (a).
ghost use Rattle.std.specs.Prelude.{◌≡◌, ◌+◌, ◌*◌, ◌≤◌, ◌<◌, length};
ghost use Rattle.words.specs.Tests.{all};
ghost use Rattle.sizes.specs.Sizes.{request_head, d_len};
ghost use Rattle.slots.specs.Slots.{slot_by};
ghost use Rattle.desk.specs.Layout.{slot_at, e_len, shape_len};
ghost use Rattle.desk.specs.Good.{open_good, request_good, slot_after, slot_good, stash_good, bodies_good};

use super::leaves::Leaves;
use super::{Shape, Status, positions};
use sizes::Sizes;

// Whether body (c) is good at a status that is not 0.
fn open_good(c: &[u8], most: Leaves, n: usize) -> bool
    requires { request_head ≤ length c.now }
    ensures { result ≡ open_good most n c.now }
{
    let kind = c[super::KIND_IN];
    let id = usize::from(words::get16(c, super::ID_IN));
    let leaf = words::get16(c, super::NEW_LEAF_IN);
    let zeros = words::get16(c, super::ZEROS_IN);
    let start = super::REQUEST_HEAD;
    (kind <= 1)
        & (c[super::ZERO_IN] == 0)
        & (1 <= id)
        & (id <= n)
        & most.has(leaf)
        & (zeros == 0)
        & ((kind == 1) | words::is_zero(&c[start..]))
}

// Whether body (c) is good. The status is the byte as it stands: whether it is one is looked at elsewhere.
fn request_good(c: &[u8], status: u8, most: Leaves, n: usize) -> bool
    requires { request_head ≤ length c.now }
    ensures { result ≡ request_good status most n c.now }
{
    if status == u8::from(Status::Ready) {
        return words::is_zero(c);
    }
    open_good(c, most, n)
}

// Whether slot `i` of the stash `e` is good, after one with id `last`.
fn slot_good(d: &[u8], e: &[u8], h: Shape, i: usize, last: usize) -> bool
    requires { (d_len h.n ≤ length d.now) × ((slot_at h i + slot_by h.r ≤ length e.now) × (i ≤ 255)) }
    ensures { result ≡ slot_after last h d.now e.now i }
{
    let at = h.slot_at(i);
    let id = usize::from(words::get16(e, at));
    if id <= last {
        return false;
    }
    if h.n < id {
        return false;
    }
    let place = super::PLACE * (id - 1);
    (d[place + super::MARK_IN] == 1)
        & (words::get16(e, at + Sizes::LEAF_IN) == words::get16(d, place))
}

// Whether the first `count` slots of the stash are good.
fn slots_good(d: &[u8], e: &[u8], h: Shape, count: usize) -> bool
    requires { (d_len h.n ≤ length d.now) × ((slot_at h count ≤ length e.now) × (count ≤ 255)) }
    ensures { result ≡ all count (slot_good h d.now e.now) }
{
    let mut last = 0;
    for i in 0..count {
        if !slot_good(d, e, h, i, last) {
            return false;
        }
        last = usize::from(words::get16(e, h.slot_at(i)));
    }
    true
}

// Whether body (e) is good.
fn stash_good(d: &[u8], e: &[u8], h: Shape) -> bool
    requires { (d_len h.n ≤ length d.now) × (length e.now ≡ e_len h) }
    ensures { result ≡ stash_good h d.now e.now }
{
    let count = usize::from(words::get16(e, 0));
    if h.s < count {
        return false;
    }
    let end = h.slot_at(count);
    slots_good(d, e, h, count) & words::is_zero(&e[end..])
}

// Whether the bodies (c), (d) and (e) are good.
pub fn bodies_good(desk: &[u8], most: Leaves, h: Shape, status: u8) -> bool
    requires { length desk.now ≡ shape_len h }
    ensures { result ≡ bodies_good most h status desk.now }
{
    let c_at = h.c_at();
    let d_at = h.d_at();
    let e_at = h.e_at();
    let c = request_good(&desk[c_at..d_at], status, most, h.n);
    let d = positions::places_good(&desk[d_at..e_at], h.n, most);
    let e = stash_good(&desk[d_at..e_at], &desk[e_at..], h);
    c & d & e
}
