// Ask: opens a request in a desk and answers with the id's position, or refuses and changes nothing.
#![tactic(auto)]

ghost use Rattle.std.specs.Prelude.{◌≡◌, true, ◌+◌, ◌≤◌, length};
ghost use Rattle.words.specs.Bytes.{splice};
ghost use Rattle.desk.specs.Layout.{Whole, shape_of};
ghost use Rattle.asks.specs.Ask.{record_fits, ask_checked, head_bytes, record_bytes, opened, ask_of, ask_result};

use desk::{Kind, Status};
use sizes::Refusal;

// Whether the lent record fits the kind, where a record has `r` bytes.
fn record_fits(kind: Kind, record: &[u8], r: usize) -> bool
    ensures { result ≡ record_fits r kind «record».now }
{
    match kind {
        Kind::Read => true,
        Kind::Write => record.len() == r,
    }
}

// The refusals of ask, in order.
fn ask_checked(desk: &[u8], kind: Kind, id: u16, leaf: u16, record: &[u8]) -> Result<(), Refusal>
    ensures { result ≡ ask_checked desk.now kind id leaf «record».now }
{
    if !desk::good(desk) {
        return Err(Refusal::BadDesk);
    }
    let status = desk::status_of(desk);
    if status.is_stopped() {
        return Err(Refusal::Stopped);
    }
    if status == Status::Open {
        return Err(Refusal::Open);
    }
    let h = desk::shape_of(desk);
    let within = (1 <= id) & (id as usize <= h.n);
    if !within {
        return Err(Refusal::BadId);
    }
    if desk::sizes_of(desk).leaves() <= leaf as usize {
        return Err(Refusal::BadLeaf);
    }
    if !record_fits(kind, record, h.r) {
        return Err(Refusal::BadLength);
    }
    Ok(())
}

// The first bytes of body (c).
fn request_head(kind: Kind, id: u16, leaf: u16) -> [u8; desk::REQUEST_HEAD]
    ensures { result ≡ head_bytes kind id leaf }
{
    let [id_low, id_high] = id.to_le_bytes();
    let [leaf_low, leaf_high] = leaf.to_le_bytes();
    [
        u8::from(kind),
        0,
        id_low,
        id_high,
        leaf_low,
        leaf_high,
        0,
        0,
    ]
}

// Writes the record of body (c), of `r` bytes.
fn put_record(dst: &mut [u8], at: usize, kind: Kind, record: &[u8], r: usize)
    requires { (at + r ≤ length dst.old) × (record_fits r kind «record».now ≡ true) }
    ensures { dst.new ≡ splice dst.old at (record_bytes r kind «record».now) }
{
    match kind {
        Kind::Read => words::clear(dst, at, r),
        Kind::Write => words::copy(dst, at, record),
    }
}

// Opens the request.
fn open_request(desk: &mut [u8], kind: Kind, id: u16, leaf: u16, record: &[u8])
    requires { Whole desk.old × (record_fits (shape_of desk.old).r kind «record».now ≡ true) }
    ensures { desk.new ≡ opened desk.old kind id leaf «record».now }
{
    let h = desk::shape_of(desk);
    let at = h.c_at();
    let head = request_head(kind, id, leaf);
    words::copy(desk, at, &head);
    put_record(desk, at + desk::REQUEST_HEAD, kind, record, h.r);
    desk[desk::STATUS] = u8::from(Status::Open);
}

// The answer is the id's position: the leaf that is asked for.
pub fn ask(desk: &mut [u8], kind: Kind, id: u16, leaf: u16, record: &[u8]) -> Result<u16, Refusal>
    ensures { ask_result result desk.new ≡ ask_of desk.old kind id leaf «record».now }
{
    ask_checked(desk, kind, id, leaf, record)?;
    let position = desk::position(desk, id as usize);
    open_request(desk, kind, id, leaf, record);
    Ok(position)
}
