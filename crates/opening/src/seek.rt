// The record of an id, as a part of the opened slots or of the stash.
ghost use Rattle.std.specs.Prelude.{◌≡◌, MatchOption, List, [], ℕ, suc, ◌*◌, ◌≤◌, ◌<◌, length};
ghost use Rattle.sizes.specs.Sizes.{record_len, slot_len, most_path};
ghost use Rattle.slots.specs.Slots.{blocks_of};
ghost use Rattle.items.specs.Way.{Reached};
ghost use Rattle.items.specs.Real.{real};
ghost use Rattle.opening.specs.Opening.{view_of, lookup, gathered};
ghost use Rattle.opening.specs.Walk.{OpenDesk, Unsealed};

use crate::table::{stash_count, stash_slots};
use items::View;
use sizes::Sizes;

// The record of the first of `n` slots that has the id.
fn record_in<'a>(slots: &'a [u8], n: usize, id: usize) -> Option<&'a [u8]>
    requires { slot_len * n ≤ length slots.now }
    ensures { MatchOption result (lookup id (blocks_of n slots.now) ≡ []) (λ found. (found.now ≡ lookup id (blocks_of n slots.now)) × (length found.now ≡ record_len)) }
{
    for slot in slots.chunks_exact(Sizes::SLOT).take(n) {
        if usize::from(words::get16(slot, 0)) == id {
            return Some(&slot[Sizes::SLOT_HEAD..]);
        }
    }
    None
}

// The record of an id: of the working copy's slots, or else of the stash's; an empty part where none has it.
pub fn lookup<'a>(desk: &'a [u8], w: &'a [u8], v: View, n: usize, id: usize) -> &'a [u8]
    requires open_desk { OpenDesk desk.now × ((v ≡ view_of desk.now) × (n ≤ suc v.sizes.height)) }
    requires w_len { (length w.now ≡ most_path) × (1 ≤ id) }
    ensures { (path : List ℕ) → Reached v path n → Unsealed v path n w.now → result.now ≡ lookup id (gathered real desk.now path) }
{
    let s = v.sizes;
    for k in 0..n {
        if let Some(found) = record_in(items::slots(w, s, k), s.slots, id) {
            return found;
        }
    }
    record_in(stash_slots(desk), stash_count(desk), id).unwrap_or(&[])
}
