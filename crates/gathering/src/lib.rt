// Gathering: every block that a finish meets goes into a bank, the requested one under its new leaf, and a plan says where each goes. Blocks of
// the opened path and of the stash are copied there, so that the lent path and the stash in the desk can be written from it.
#![tactic(auto)]

ghost use Rattle.std.specs.Prelude.{◌≡◌, ◌+◌, ◌*◌, ◌≤◌, length, drop};
ghost use Rattle.words.specs.Bytes.{splice};
ghost use Rattle.sizes.specs.Sizes.{InRange, most_slots, record_len, slot_len, path_len};
ghost use Rattle.bags.specs.Bags.{those};
ghost use Rattle.slots.specs.Slots.{blocks_of, slots_bytes};
ghost use Rattle.placing.specs.Bank.{Planned};
ghost use Rattle.gathering.specs.Gathering as spec;

use placing::Counts;
use sizes::Sizes;

// The requested id, and the new leaf of its block, if there is one to place: a read of an id that was never written has none.
#[derive(Clone, Copy, Drop)]
pub struct Request {
    pub id: u16,
    pub leaf: Option<u16>,
}

// The requested block into slot 0, if there is one; and how many that is.
fn put_request(bank: &mut [u8], request: Request, record: &[u8]) -> usize
    requires { (slot_len ≤ length bank.old) × (length «record».now ≡ record_len) }
    ensures { (result ≡ length (spec.requested request «record».now)) × (bank.new ≡ splice bank.old 0 (slots_bytes (spec.requested request «record».now))) }
{
    let Some(leaf) = request.leaf else {
        return 0;
    };
    words::put16(bank, 0, request.id);
    words::put16(bank, Sizes::LEAF_IN, leaf);
    words::copy(bank, Sizes::SLOT_HEAD, record);
    1
}

// Takes the slots in use, but for those of `id`, among the first `z` of `slots`, into the bank from slot `m` on; and says where they end.
fn take_others(bank: &mut [u8], m: usize, slots: &[u8], z: usize, id: u16) -> usize
    requires { (slot_len * z ≤ length slots.now) × (slot_len * (m + z) ≤ length bank.old) }
    ensures value { (result ≡ m + length (spec.others id (blocks_of z slots.now))) × (result ≤ m + z) }
    ensures bank_after { bank.new ≡ splice bank.old (slot_len * m) (slots_bytes (spec.others id (blocks_of z slots.now))) }
{
    let mut k = m;
    for slot in slots.chunks_exact(Sizes::SLOT).take(z) {
        let x = words::get16(slot, 0);
        if (x != 0) & (x != id) {
            placing::bank::copy_slot(bank, Sizes::SLOT * k, slot);
            k += 1;
        }
    }
    k
}

// The same of the first `n` items of an opened path.
fn take_path(bank: &mut [u8], m: usize, opened: &[u8], s: Sizes, n: usize, id: u16) -> usize
    requires in_range { InRange s × ((n ≤ s.height + 1) × (path_len s ≤ length opened.now)) }
    requires n_in_bounds { slot_len * (m + most_slots * n) ≤ length bank.old }
    ensures value { (result ≡ m + length (those (spec.is_other id) (spec.used_to s opened.now n))) × (result ≤ m + most_slots * n) }
    ensures bank_after { bank.new ≡ splice bank.old (slot_len * m) (slots_bytes (those (spec.is_other id) (spec.used_to s opened.now n))) }
{
    let mut end = m;
    for k in 0..n {
        let a = s.item_at(k) + Sizes::COUNTER;
        end = take_others(bank, end, &opened[a..], s.slots, id);
    }
    end
}

// The plan for a finish on the path to `leaf`, of which the first `n` items are reachable, with `count` blocks in the stash.
pub fn arrange(
    bank: &mut [u8],
    places: &mut [u16],
    at: &mut [u8],
    s: Sizes,
    leaf: usize,
    ids: usize,
    opened: &[u8],
    n: usize,
    stash: &[u8],
    count: usize,
    request: Request,
    record: &[u8],
) -> Counts
    requires { spec.Opened s ids opened.now n stash.now count request × spec.Roomy bank.old places.old at.old «record».now }
    ensures { Planned s leaf (spec.to_place request «record».now (spec.found s opened.now n stash.now count)) result.all result.over bank.new places.new at.new }
{
    let id = request.id;
    let a = put_request(bank, request, record);
    let b = take_path(bank, a, opened, s, n, id);
    let m = take_others(bank, b, stash, count, id);
    placing::plan(bank, m, s, leaf, ids, places, at)
}
