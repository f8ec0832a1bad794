// Placing, step 5 of finish: which block goes where is planned before anything that was lent is written, so that Full is known first. The plan is
// two small arrays: the blocks' places in a bank of slots by rising id, and for each the height of its bucket. `fill` lays the slots of one height.
#![tactic(auto)]

ghost use Rattle.std.specs.Prelude.{◌≡◌, ◌+◌, ◌*◌, ◌≤◌, length};
ghost use Rattle.sizes.specs.Sizes.{InRange, most_ids, slot_len};
ghost use Rattle.slots.specs.Slots.{blocks_of};
ghost use Rattle.placing.specs.Placing.{sorted};
ghost use Rattle.placing.specs.Ids.{Placeable};
ghost use Rattle.placing.specs.Bank.{most_blocks, Planned};

use sizes::Sizes;

pub mod bank;
pub mod order;
pub mod walk;

// The most blocks that one finish can meet: the slots of the longest path, the largest stash, and a new one.
pub const MOST_BLOCKS: usize = (Sizes::MOST_HEIGHT + 1) * Sizes::MOST_SLOTS + Sizes::MOST_ROOM + 1;

// How many blocks there are, and how many of them remain.
#[derive(Clone, Copy, Drop)]
pub struct Counts {
    pub all: usize,
    pub over: usize,
}

// The plan for the blocks in the first `n` slots of a bank, on the path to `leaf`.
// Not a struct of the three arrays: the bank may be of any length that holds `n` slots (`ids_le_most_ids`), and an array has one.
pub fn plan(
    bank: &[u8],
    n: usize,
    s: Sizes,
    leaf: usize,
    ids: usize,
    places: &mut [u16],
    at: &mut [u8],
) -> Counts
    requires in_range { InRange s × Placeable ids (blocks_of n bank.now) }
    requires ids_le_most_ids { (ids ≤ most_ids) × ((n ≤ most_blocks) × (slot_len * n ≤ length bank.now)) }
    requires places_len { (length places.old ≡ most_blocks) × (length at.old ≡ most_blocks) }
    ensures { Planned s leaf (sorted (blocks_of n bank.now)) result.all result.over bank.now places.new at.new }
{
    let all = order::order(bank, n, ids, places);
    let over = walk::assign(bank, &places[..all], s, leaf, at);
    Counts { all, over }
}
