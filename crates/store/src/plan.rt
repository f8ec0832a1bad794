// Steps 3 and 5: the plan for the blocks of path and stash, the requested one under its new leaf with the record that it carries on.
ghost use Rattle.std.specs.Prelude.{◌≡◌, ◌*◌, length};
ghost use Rattle.sizes.specs.Sizes.{slot_len};
ghost use Rattle.opening.specs.Walk.{OpenDesk};
ghost use Rattle.items.specs.Real.{real};
ghost use Rattle.placing.specs.Bank.{most_blocks, Planned};
ghost use Rattle.store.specs.Steps.{to_place};
ghost use Rattle.store.specs.Ready.{Ready};
ghost use Rattle.store.specs.Ready as ready;

use crate::request;
use gathering::Request;
use items::View;
use placing::Counts;
use sizes::Sizes;

// The requested block.
fn request_of(desk: &[u8]) -> Request
    requires { OpenDesk desk.now }
    ensures { result ≡ ready.request_of desk.now }
{
    let there = request::is_there(request::kind_asked(desk), request::was_marked(desk));
    Request {
        id: opening::id_asked(desk) as u16,
        leaf: there.then_some(request::new_leaf(desk)),
    }
}

// The plan; `path` is the path that was opened into `w`.
pub fn plan(
    bank: &mut [u8],
    places: &mut [u16],
    at: &mut [u8],
    desk: &[u8],
    path: &[u8],
    w: &[u8],
    v: View,
    n: usize,
    carried: &[u8],
) -> Counts
    requires ready { Ready desk.now path.now v n w.now × (carried.now ≡ ready.carried_of desk.now path.now) }
    requires bank_len { (length bank.old ≡ slot_len * most_blocks) × ((length places.old ≡ most_blocks) × (length at.old ≡ most_blocks)) }
    ensures { Planned v.sizes v.leaf (to_place real desk.now path.now) result.all result.over bank.new places.new at.new }
{
    let s = v.sizes;
    let r = request_of(desk);
    let shape = desk::shape_of(desk);
    let count = opening::stash_count(desk);
    let slots = opening::stash_slots(desk);
    gathering::arrange(
        bank, places, at, s, v.leaf, shape.n, w, n, slots, count, r, carried,
    )
}

// The record that the requested block carries on, as an array of its own, so that desk and working copy can be written.
pub fn record_carried<'a>(
    desk: &'a [u8],
    path: &[u8],
    w: &'a [u8],
    v: View,
    n: usize,
) -> [u8; Sizes::RECORD]
    requires { Ready desk.now path.now v n w.now }
    ensures { result ≡ ready.carried_of desk.now path.now }
{
    let mut bytes = [0u8; Sizes::RECORD];
    words::copy(&mut bytes, 0, request::carried(desk, w, v, n));
    bytes
}
