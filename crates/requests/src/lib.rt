// One whole request against a lent tree: ask, fetch, finish, put.
#![tactic(auto)]

ghost use Rattle.std.specs.Prelude.{◌≤◌, ◌≡◌, length};
ghost use Rattle.sizes.specs.Sizes.{sized};
ghost use Rattle.desk.specs.Layout.{b_at};
ghost use Rattle.desk.specs.Readers.{sizes_of};
ghost use Rattle.items.specs.Real.{real};
ghost use Rattle.store.specs.Finish.{finish_of};
ghost use Rattle.requests.specs.Request.{requested, returned, fetched_for, request_of};

use desk::Kind;
use sizes::Refusal;
use store::Finished;

// What a whole request answers: a refusal before anything was asked, or the leaf asked for and what came of it.
pub type Answered = Result<(u16, Result<Finished, Refusal>), Refusal>;

// Finish, and put where it was accepted: a refused finish has written no path.
fn finish_put(
    desk: &mut [u8],
    tree: &mut [u8],
    path: &mut [u8],
    record: &mut [u8],
    height: u8,
    slots: u8,
    leaf: u16,
) -> Answered
    ensures { requested result desk.new tree.new path.new «record».new ≡ returned (sized height slots) leaf tree.old (finish_of real desk.old path.old «record».old) }
{
    let finished = store::finish(desk, path, record);
    if finished.is_ok() {
        let _ = tree::put(tree, height, slots, leaf, path);
    }
    Ok((leaf, finished))
}

// Steps of an open request over its desk's sizes. A tree or path of another length is refused, and the request stays open.
fn fetch_finish(
    desk: &mut [u8],
    tree: &mut [u8],
    path: &mut [u8],
    record: &mut [u8],
    leaf: u16,
) -> Answered
    requires { b_at ≤ length desk.old }
    ensures { requested result desk.new tree.new path.new «record».new ≡ fetched_for (sizes_of desk.old) leaf desk.old tree.old path.old «record».old }
{
    let height = desk[desk::HEIGHT];
    let slots = desk[desk::SLOTS];
    match tree::fetch(tree, height, slots, leaf, path) {
        Err(r) => Ok((leaf, Err(r))),
        Ok(()) => finish_put(desk, tree, path, record, height, slots, leaf),
    }
}

// The lent record is what a write writes, and where a read's record goes.
pub fn request(
    desk: &mut [u8],
    tree: &mut [u8],
    path: &mut [u8],
    record: &mut [u8],
    kind: Kind,
    id: u16,
    leaf: u16,
) -> Answered
    ensures { requested result desk.new tree.new path.new «record».new ≡ request_of desk.old tree.old path.old «record».old kind id leaf }
{
    let position = asks::ask(desk, kind, id, leaf, record)?;
    fetch_finish(desk, tree, path, record, position)
}
