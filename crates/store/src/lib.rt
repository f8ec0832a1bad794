// Finish: the open request is answered over the path that the server handed back. Nothing lent is written before the last refusal is behind.
#![tactic(auto)]

ghost use Rattle.std.specs.Prelude.{◌≡◌, ℕ, ◌+◌, ◌≤◌, ◌<◌, length};
ghost use Rattle.std.specs.Int.{from_bool};
ghost use Rattle.sizes.specs.Sizes.{leaves, path_len, record_len};
ghost use Rattle.sizes.specs.Refusals.{first_of};
ghost use Rattle.desk.specs.Layout.{Whole, ids_of, room_of};
ghost use Rattle.desk.specs.Readers.{sizes_of, new_leaf};
ghost use Rattle.opening.specs.Walk.{OpenDesk};
ghost use Rattle.items.specs.Items.{Carries};
ghost use Rattle.items.specs.Way.{Reached};
ghost use Rattle.items.specs.Real.{real};
ghost use Rattle.placing.specs.Bank.{most_blocks, Planned};
ghost use Rattle.placing.specs.Plans.{blocks_in, blocks_for};
ghost use Rattle.store.specs.Finish.{entry_rows, path_rows, full_rows, finish_result, finish_by, finish_of};
ghost use Rattle.store.specs.Steps.{to_place, new_path, new_desk};
ghost use Rattle.store.specs.Ready.{Ready};
ghost use Rattle.store.specs.Laying.{Laid, Writable, Accepted};

use desk::Status;
use items::View;
use placing::Counts;
use placing::bank::Plan;
use sizes::{Refusal, Sizes};

mod plan;
mod request;

// What a finish that is not refused answers. A record goes to the lent buffer.
#[derive(Clone, Copy, Debug, PartialEq, Eq)]
pub enum Finished {
    Record,
    Never,
    Done,
}

// The refusals that come before the path is looked at, in order.
fn entry_checked(desk: &[u8], path: &[u8], record: &[u8]) -> Result<(), Refusal>
    ensures { result ≡ first_of (entry_rows desk.now path.now «record».now) }
{
    if !desk::good(desk) {
        return Err(Refusal::BadDesk);
    }
    let status = desk::status_of(desk);
    if status.is_stopped() {
        return Err(Refusal::Stopped);
    }
    if status == Status::Ready {
        return Err(Refusal::NotOpen);
    }
    let s = desk::sizes_of(desk);
    let fits = (path.len() == s.path_len()) & (record.len() == Sizes::RECORD);
    if !fits {
        return Err(Refusal::BadLength);
    }
    Ok(())
}

// The slots of each bucket, laid into the working copy: the bucket of level `k` has the height L - k in the plan.
fn lay(w: &mut [u8], s: Sizes, plan: Plan)
    requires carries { Carries s w.old }
    requires by_index { (h : ℕ) → h ≤ s.height → length (blocks_for plan h) ≤ s.slots }
    ensures { Laid s plan.entry.at.now (blocks_in plan.entry) w.new (s.height + 1) }
{
    for k in 0..s.height + 1 {
        let a = s.item_at(k) + Sizes::COUNTER;
        let h = (s.height - k) as u8;
        plan.fill(w, a, s.slots, h);
    }
}

// Step 6, whole: the buckets laid into the working copy, the path written from it, the desk settled.
fn accept(
    desk: &mut [u8],
    path: &mut [u8],
    w: &mut [u8],
    v: View,
    n: usize,
    id: usize,
    leaf: u16,
    marked: bool,
    over: usize,
    plan: Plan,
)
    requires whole { Whole desk.old × ((1 ≤ id) × (id ≤ ids_of desk.old)) }
    requires carries { Carries v.sizes path.old × ((length path.old ≡ path_len v.sizes) × Carries v.sizes w.old) }
    requires leaf_bound { (v.leaf < leaves v.sizes) × Reached v path.old n }
    requires writable { Writable v.sizes (room_of desk.old) over plan.at.now (blocks_in plan) }
    ensures { Accepted v path.old desk.old path.new desk.new id leaf (from_bool marked) plan.entry.at.now (blocks_in plan.entry) }
{
    let s = v.sizes;
    lay(w, s, plan);
    let root = writing::write_path(path, w, v, n);
    let h = (s.height + 1) as u8;
    let mark = u8::from(marked);
    settling::settle(desk, id, leaf, mark, over, h, plan, &root);
}

// Steps 4 and 6 by a plan: path and desk are then the new ones.
fn follow(
    desk: &mut [u8],
    path: &mut [u8],
    w: &mut [u8],
    v: View,
    n: usize,
    c: Counts,
    bank: &[u8],
    places: &[u16],
    at: &[u8],
)
    requires ready { Ready desk.old path.old v n w.old }
    requires over_bound { (c.over ≤ room_of desk.old) × ((length places.now ≡ most_blocks) × (length at.now ≡ most_blocks)) }
    requires planned { Planned v.sizes v.leaf (to_place real desk.old path.old) c.all c.over bank.now places.now at.now }
    ensures { (path.new ≡ new_path real desk.old path.old) × (desk.new ≡ new_desk real desk.old path.old) }
{
    let id = opening::id_asked(desk);
    let leaf = request::new_leaf(desk);
    let marked = request::is_there(request::kind_asked(desk), request::was_marked(desk));
    let plan = Plan {
        bank,
        places: &places[..c.all],
        at: &at[..c.all],
    };
    accept(desk, path, w, v, n, id, leaf, marked, c.over, plan);
}

// A bank for the most blocks that one finish can meet.
const BANK: usize = Sizes::SLOT * placing::MOST_BLOCKS;

// Steps 3 to 6 over a path that passed its checks. Full is known before anything that was lent is written.
fn place(
    desk: &mut [u8],
    path: &mut [u8],
    record: &mut [u8],
    w: &mut [u8],
    v: View,
    n: usize,
) -> Result<Finished, Refusal>
    requires { Ready desk.old path.old v n w.old × (length «record».old ≡ record_len) }
    ensures { finish_result result desk.new path.new «record».new ≡ finish_by (first_of (full_rows real desk.old path.old)) real desk.old path.old «record».old }
{
    let kind = request::kind_asked(desk);
    let marked = request::was_marked(desk);
    let kept = plan::record_carried(desk, path, w, v, n);
    let mut bank = [0u8; BANK];
    let mut places = [0u16; placing::MOST_BLOCKS];
    let mut at = [0u8; placing::MOST_BLOCKS];
    let c = plan::plan(&mut bank, &mut places, &mut at, desk, path, w, v, n, &kept);
    let rest = c.over;
    let room = desk[desk::ROOM] as usize;
    if room < rest {
        desk[desk::STATUS] = u8::from(Status::Full);
        return Err(Refusal::Full);
    }
    request::hand_out(record, &kept, kind, marked);
    follow(desk, path, w, v, n, c, &bank, &places, &at);
    Ok(request::answer_for(kind, marked))
}

// Steps 1 to 6 of an open request.
fn finish_open(desk: &mut [u8], path: &mut [u8], record: &mut [u8]) -> Result<Finished, Refusal>
    requires open_desk { OpenDesk desk.old × (new_leaf desk.old < leaves (sizes_of desk.old)) }
    requires path_len { (length path.old ≡ path_len (sizes_of desk.old)) × (length «record».old ≡ record_len) }
    ensures { finish_result result desk.new path.new «record».new ≡ finish_by (first_of (path_rows real desk.old path.old)) real desk.old path.old «record».old }
{
    let v = opening::view(desk);
    let mut w = [0u8; Sizes::MOST_PATH];
    let Ok(n) = opening::open_path(desk, path, v, &mut w) else {
        desk[desk::STATUS] = u8::from(Status::Forged);
        return Err(Refusal::Forged);
    };
    if opening::is_worn(path, v, n) {
        desk[desk::STATUS] = u8::from(Status::Worn);
        return Err(Refusal::Worn);
    }
    place(desk, path, record, &mut w, v, n)
}

pub fn finish(desk: &mut [u8], path: &mut [u8], record: &mut [u8]) -> Result<Finished, Refusal>
    ensures { finish_result result desk.new path.new «record».new ≡ finish_of real desk.old path.old «record».old }
{
    entry_checked(desk, path, record)?;
    finish_open(desk, path, record)
}
