// The desk: its layout, and when it is good. What a desk says, what can be changed in one, and the conditions are defined in specs/;
// the laws that callers cite are in proofs/.
#![tactic(auto)]

use leaves::Leaves;
use sizes::Sizes;
use std::marker::Model;

// When the bodies (c), (d) and (e) are good.
mod bodies;
mod leaves;
mod positions;

ghost use Rattle.std.specs.Prelude.{◌≡◌, true, leb, [], ◌∷◌, ◌++◌, ◌+◌, ◌≤◌, length};
ghost use Rattle.words.specs.Bytes.{part, splice, same};
ghost use Rattle.words.specs.Numbers.{bytes_of};
ghost use Rattle.sizes.specs.Sizes.{contents_len, place_len, ids_good};
ghost use Rattle.desk.specs.Layout.{Whole, b_at, c_at, c_len, d_at, e_at, slot_at, e_len, shape_len, pair, pair_len, contents, ids_of, shape_by, shape_of};
ghost use Rattle.desk.specs.Readers.{sizes_of, status_of, position_of};
ghost use Rattle.desk.specs.Good.{good_desk, head_good};
ghost use Rattle.desk.specs.Status.{first_stopped};
ghost use Rattle.desk.specs.Numbers.{kind_of, status_number, NamesStatus};

pub const PAIR: usize = 8;

pub const CONTENTS: usize = 5 * PAIR;

pub const A_LEN: usize = 8;

pub const KEY: usize = 32;

pub const B_LEN: usize = KEY + Sizes::DIGEST;

pub const REQUEST_HEAD: usize = 8;

pub const PLACE: usize = 3;

pub const COUNT: usize = 2;

// Body (a) and its fields, body (b) and its root digest.
pub const A_AT: usize = CONTENTS;

pub const HEIGHT: usize = A_AT;

pub const SLOTS: usize = A_AT + 1;

pub const ROOM: usize = A_AT + 2;

pub const STATUS: usize = A_AT + 3;

pub const WRITTEN: usize = A_AT + 4;

pub const ZERO: usize = A_AT + 5;

pub const IDS: usize = A_AT + 6;

pub const B_AT: usize = A_AT + A_LEN;

pub const ROOT: usize = B_AT + KEY;

// In body (c), in a place of body (d).
pub const KIND_IN: usize = 0;

pub const ZERO_IN: usize = 1;

pub const ID_IN: usize = 2;

pub const NEW_LEAF_IN: usize = 4;

pub const ZEROS_IN: usize = 6;

pub const MARK_IN: usize = 2;

// A desk's status. One that is stopped takes no request any more.
#[derive(Clone, Copy, Debug, PartialEq, Eq)]
pub enum Status {
    Ready,
    Open,
    Forged,
    Worn,
    Full,
}

impl From<Status> for u8 {
    ghost from_gives = { λ s n. n ≡ status_number s };

    fn from(s: Status) -> u8 {
        match s {
            Status::Ready => 0,
            Status::Open => 1,
            Status::Forged => 2,
            Status::Worn => 3,
            Status::Full => 4,
        }
    }
}

impl Status {
    pub fn is_stopped(self) -> bool
        ensures { result ≡ leb first_stopped (status_number self) }
    {
        matches!(self, Status::Forged | Status::Worn | Status::Full)
    }
}

// A number that is no status's.
#[derive(Clone, Copy, Debug, PartialEq, Eq)]
pub struct NoStatus(pub u8);

impl TryFrom<u8> for Status {
    type Error = NoStatus;

    ghost try_from_gives = { NamesStatus };

    fn try_from(x: u8) -> Result<Self, NoStatus> {
        match x {
            0 => Ok(Status::Ready),
            1 => Ok(Status::Open),
            2 => Ok(Status::Forged),
            3 => Ok(Status::Worn),
            4 => Ok(Status::Full),
            _ => Err(NoStatus(x)),
        }
    }
}

#[derive(Clone, Copy, Debug, PartialEq, Eq)]
pub enum Kind {
    Read,
    Write,
}

impl From<Kind> for u8 {
    ghost from_gives = { λ k n. n ≡ kind_of k };

    fn from(k: Kind) -> u8 {
        match k {
            Kind::Read => 0,
            Kind::Write => 1,
        }
    }
}

// The lengths on which a desk's layout depends: of body (b), of a record, and the numbers of ids and of stash slots. Whichever bytes name them, they are so
// small that every offset fits.
#[derive(Clone, Copy, Debug, PartialEq, Eq)]
pub struct Shape {
    pub b: usize,
    pub r: usize,
    pub n: usize,
    pub s: usize,
}

impl Model for Shape {
    ghost use Rattle.std.specs.Prelude.{◌≤◌, ◌<◌};
    ghost use Rattle.sizes.specs.Sizes.{b_len, record_len};
    ghost use Rattle.desk.specs.Lengths.{Lengths};

    ghost Value = { Lengths };

    ghost view = { λ h. record { b = h.b; r = h.r; n = h.n; s = h.s } };

    ghost invariant = { λ h. (h.b ≤ b_len) × ((h.r ≤ record_len) × ((h.n < 65536) × (h.s ≤ 255))) };

    ghost inverse = { λ h. record { b = h.b; r = h.r; n = h.n; s = h.s } };
}

impl Shape {
    // Of a desk with so many ids and stash slots.
    pub fn new(ids: u16, stash: u8) -> Shape
        ensures { result ≡ shape_by ids stash }
    {
        Shape {
            b: B_LEN,
            r: Sizes::RECORD,
            n: usize::from(ids),
            s: usize::from(stash),
        }
    }

    pub fn c_at(self) -> usize
        ensures { result ≡ c_at self }
    {
        B_AT + self.b
    }

    // The length of body (c).
    pub fn c_len(self) -> usize
        ensures { result ≡ c_len self }
    {
        REQUEST_HEAD + self.r
    }

    pub fn d_at(self) -> usize
        ensures { result ≡ d_at self }
    {
        self.c_at() + self.c_len()
    }

    pub fn e_at(self) -> usize
        ensures { result ≡ e_at self }
    {
        self.d_at() + PLACE * self.n
    }

    // Where slot `i` starts in body (e).
    pub fn slot_at(self, i: usize) -> usize
        requires { i ≤ 255 }
        ensures { result ≡ slot_at self i }
    {
        COUNT + (Sizes::SLOT_HEAD + self.r) * i
    }

    // The length of body (e).
    fn e_len(self) -> usize
        ensures { result ≡ e_len self }
    {
        let room = self.s;
        self.slot_at(room)
    }

    // The length of the whole desk.
    pub fn len(self) -> usize
        ensures { result ≡ shape_len self }
    {
        self.e_at() + self.e_len()
    }
}

// The shape that a desk's own bytes name.
pub fn shape_of(desk: &[u8]) -> Shape
    requires { b_at ≤ length desk.now }
    ensures { result ≡ shape_of desk.now }
{
    Shape::new(words::get16(desk, IDS), desk[ROOM])
}

// The sizes of the tree that a desk belongs to.
pub fn sizes_of(desk: &[u8]) -> Sizes
    requires { b_at ≤ length desk.now }
    ensures { result ≡ sizes_of desk.now }
{
    Sizes::of(desk[HEIGHT], desk[SLOTS])
}

// Whether a number of ids is in range.
pub fn ids_good(n: usize) -> bool
    ensures { result ≡ ids_good n }
{
    (1 <= n) & (n <= Sizes::MOST_IDS)
}

// Writes the pair of one body into the contents.
fn put_pair(dst: &mut [u8], at: usize, offset: usize, len: usize)
    requires { at + pair_len ≤ length dst.old }
    ensures { dst.new ≡ splice dst.old at (pair offset len) }
{
    words::put_number(dst, at, 4, offset as u64);
    words::put_number(dst, at + 4, 4, len as u64);
}

// Writes the computed contents.
pub fn put_contents(dst: &mut [u8], h: Shape)
    requires { contents_len ≤ length dst.old }
    ensures { dst.new ≡ splice dst.old 0 (contents h) }
{
    put_pair(dst, 0, A_AT, A_LEN);
    put_pair(dst, PAIR, B_AT, h.b);
    put_pair(dst, 2 * PAIR, h.c_at(), h.c_len());
    put_pair(dst, 3 * PAIR, h.d_at(), PLACE * h.n);
    put_pair(dst, 4 * PAIR, h.e_at(), h.e_len());
}

// Whether the contents are the computed ones.
fn contents_good(desk: &[u8], h: Shape) -> bool
    requires { contents_len ≤ length desk.now }
    ensures { result ≡ same (part desk.now 0 contents_len) (contents h) }
{
    let mut due = [0u8; CONTENTS];
    put_contents(&mut due, h);
    words::same(&desk[..CONTENTS], &due)
}

// Whether body (a) is good.
fn head_good(desk: &[u8]) -> bool
    requires { b_at ≤ length desk.now }
    ensures { result ≡ head_good desk.now }
{
    sizes_of(desk).good()
        & ids_good(usize::from(words::get16(desk, IDS)))
        & Status::try_from(desk[STATUS]).is_ok()
        & (desk[WRITTEN] <= 1)
        & (desk[ZERO] == 0)
}

// Whether a desk is good.
pub fn good(desk: &[u8]) -> bool
    ensures { result ≡ good_desk desk.now }
{
    if desk.len() < B_AT {
        return false;
    }
    if !head_good(desk) {
        return false;
    }
    let h = shape_of(desk);
    if desk.len() != h.len() {
        return false;
    }
    contents_good(desk, h) & bodies::bodies_good(desk, Leaves::of(sizes_of(desk)), h, desk[STATUS])
}

// The status of a good desk.
pub fn status_of(desk: &[u8]) -> Status
    requires { good_desk desk.now ≡ true }
    ensures { status_number result ≡ status_of desk.now }
{
    Status::try_from(desk[STATUS]).unwrap()
}

// The position of an id.
pub fn position(desk: &[u8], id: usize) -> u16
    requires { Whole desk.now × ((1 ≤ id) × (id ≤ ids_of desk.now)) }
    ensures { result ≡ position_of desk.now id }
{
    words::get16(desk, shape_of(desk).d_at() + PLACE * (id - 1))
}

// Writes a position and a mark into the place that starts at `at`.
pub fn put_place(dst: &mut [u8], at: usize, leaf: u16, mark: u8)
    requires { at + place_len ≤ length dst.old }
    ensures { dst.new ≡ splice dst.old at (bytes_of 2 leaf ++ (mark ∷ [])) }
{
    words::put16(dst, at, leaf);
    dst[at + MARK_IN] = mark;
}
