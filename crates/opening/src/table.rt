// The checks of the opened slots, with a table of the ids met: those of the stash first, then slot by slot from the root.
ghost use Rattle.std.specs.Prelude.{◌≡◌, List, ℕ, suc, ◌*◌, ◌≤◌, ◌<◌, length, eqb};
ghost use Rattle.words.specs.Numbers.{number};
ghost use Rattle.sizes.specs.Sizes.{InRange, most_ids, most_path, record_len, slot_len, slots_len, bucket_at};
ghost use Rattle.slots.specs.Slots.{block_by, blocks_of};
ghost use Rattle.desk.specs.Layout.{Whole, ids_of};
ghost use Rattle.desk.specs.Readers.{is_marked, stash_count};
ghost use Rattle.items.specs.Way.{Reached};
ghost use Rattle.items.specs.Real.{real};
ghost use Rattle.opening.specs.Opening.{view_of, is_placed, stash_slots, slots_fit};
ghost use Rattle.opening.specs.Walk.{OpenDesk, Unsealed, Seen, Looked, Walked};

use items::View;
use sizes::Sizes;

// The table has a place for each id, and one for 0.
// Its entries are bytes, 0 or 1: with `bool` finish needs 12 bytes of stack more than tests/stack/limits allows.
const TABLE: usize = Sizes::MOST_IDS + 1;

// Whether an id is marked.
pub fn is_marked(desk: &[u8], id: usize) -> bool
    requires { Whole desk.now × ((1 ≤ id) × (id ≤ ids_of desk.now)) }
    ensures { result ≡ is_marked desk.now id }
{
    let a = desk::shape_of(desk).d_at() + desk::PLACE * (id - 1) + desk::MARK_IN;
    desk[a] == 1
}

// Whether two leaves have the same bucket at level `k`.
fn same_bucket(s: Sizes, a: usize, b: usize, k: usize) -> bool
    requires { InRange s × (k ≤ s.height) }
    ensures { result ≡ eqb (bucket_at s a k) (bucket_at s b k) }
{
    let d = s.height - k;
    (a >> d) == (b >> d)
}

// Whether a block is one that the desk knows, under its position's leaf, in a bucket on the way there.
fn is_placed(desk: &[u8], v: View, k: usize, id: usize, leaf: usize) -> bool
    requires { OpenDesk desk.now × ((v ≡ view_of desk.now) × ((k ≤ v.sizes.height) × (1 ≤ id))) }
    ensures { (bytes : List ℕ) → result ≡ is_placed desk.now k (record { id = id; leaf = leaf; bytes = bytes }) }
{
    let h = desk::shape_of(desk);
    if h.n < id {
        return false;
    }
    let s = v.sizes;
    is_marked(desk, id)
        & (leaf == desk::position(desk, id) as usize)
        & same_bucket(s, leaf, v.leaf, k)
}

// The slot of a block at level `k`, whose id is met then.
fn slot_good(desk: &[u8], slot: &[u8], seen: &mut [u8], v: View, k: usize) -> bool
    requires open_desk { OpenDesk desk.now × ((v ≡ view_of desk.now) × (k ≤ v.sizes.height)) }
    requires slot_len { (length slot.now ≡ slot_len) × (length seen.old ≡ suc most_ids) }
    ensures { Looked desk.now k (block_by record_len slot.now) seen.old seen.new result }
{
    let id = words::get16(slot, 0) as usize;
    if id == 0 {
        return true;
    }
    if !is_placed(desk, v, k, id, words::get16(slot, Sizes::LEAF_IN) as usize) {
        return false;
    }
    if seen[id] != 0 {
        return false;
    }
    seen[id] = 1;
    true
}

// The slots of the item at level `k`.
fn item_good(desk: &[u8], slots: &[u8], seen: &mut [u8], v: View, k: usize) -> bool
    requires open_desk { OpenDesk desk.now × ((v ≡ view_of desk.now) × (k ≤ v.sizes.height)) }
    requires slots_len { (length slots.now ≡ slots_len v.sizes) × (length seen.old ≡ suc most_ids) }
    ensures { Walked desk.now k (blocks_of v.sizes.slots slots.now) seen.old seen.new result }
{
    for slot in slots.chunks_exact(Sizes::SLOT).take(v.sizes.slots) {
        if !slot_good(desk, slot, seen, v, k) {
            return false;
        }
    }
    true
}

// How many slots of the stash are in use, and its slots.
pub fn stash_count(desk: &[u8]) -> usize
    requires { OpenDesk desk.now }
    ensures { result ≡ stash_count desk.now }
{
    words::get16(desk, desk::shape_of(desk).e_at()) as usize
}

pub fn stash_slots(desk: &[u8]) -> &[u8]
    requires { OpenDesk desk.now }
    ensures { result.now ≡ stash_slots desk.now }
{
    let a = desk::shape_of(desk).e_at() + desk::COUNT;
    &desk[a..]
}

// The ids of the first `n` slots are met.
fn ids_seen(slots: &[u8], n: usize) -> [u8; TABLE]
    requires n_in_bounds { slot_len * n ≤ length slots.now }
    requires by_index { (i : ℕ) → i < n → number 2 slots.now (slot_len * i) ≤ most_ids }
    ensures { Seen result (blocks_of n slots.now) }
{
    let mut seen = [0u8; TABLE];
    for slot in slots.chunks_exact(Sizes::SLOT).take(n) {
        let id = usize::from(words::get16(slot, 0));
        seen[id] = 1;
    }
    seen
}

// Whether every slot of the reachable items passes, and the requested id, if it is marked, is on the path or in the stash.
pub fn slots_good(desk: &[u8], w: &[u8], v: View, n: usize) -> bool
    requires open_desk { OpenDesk desk.now × ((v ≡ view_of desk.now) × (n ≤ suc v.sizes.height)) }
    requires w_len { length w.now ≡ most_path }
    ensures { (path : List ℕ) → Reached v path n → Unsealed v path n w.now → result ≡ slots_fit real desk.now path }
{
    let mut seen = ids_seen(stash_slots(desk), stash_count(desk));
    let s = v.sizes;
    for k in 0..n {
        if !item_good(desk, items::slots(w, s, k), &mut seen, v, k) {
            return false;
        }
    }
    let id = crate::id_asked(desk);
    !is_marked(desk, id) | (seen[id] != 0)
}
