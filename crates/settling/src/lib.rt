// Finish, steps 4 and 6, on the desk: what an accepted request leaves there. Each function changes one part and keeps the desk's shape.
#![tactic(auto)]

ghost use Rattle.std.specs.Prelude.{◌≡◌, ◌≤◌, length};
ghost use Rattle.sizes.specs.Sizes.{digest_len};
ghost use Rattle.desk.specs.Layout.{Whole, ids_of, room_of};
ghost use Rattle.desk.specs.Changes.{with_place, with_root, with_stash, closed, settled};
ghost use Rattle.placing.specs.Plans.{blocks_for};
ghost use Rattle.settling.specs.Settling.{Held};

use desk::Status;
use placing::bank::Plan;
use sizes::Sizes;

// The id's position and mark: the byte that goes to the desk, and no bool, since `settle` and the promises take any.
pub fn set_place(desk: &mut [u8], id: usize, leaf: u16, mark: u8)
    requires { Whole desk.old × ((1 ≤ id) × (id ≤ ids_of desk.old)) }
    ensures { desk.new ≡ with_place id leaf mark desk.old }
{
    let at = desk::shape_of(desk).d_at() + desk::PLACE * (id - 1);
    desk::put_place(desk, at, leaf, mark);
}

// The stash: `over` blocks, those of the plan at the height above the root.
pub fn set_stash(desk: &mut [u8], over: usize, h: u8, plan: Plan)
    requires whole { Whole desk.old × (over ≤ room_of desk.old) }
    requires places_len { length (blocks_for plan h) ≡ over }
    ensures { desk.new ≡ with_stash (blocks_for plan.entry h) desk.old }
{
    let shape = desk::shape_of(desk);
    let e = shape.e_at();
    let room = shape.s;
    words::put16(desk, e, over as u16);
    plan.fill(desk, e + desk::COUNT, room, h);
}

// The root digest, and root written.
pub fn set_root(desk: &mut [u8], root: &[u8; Sizes::DIGEST])
    requires { Whole desk.old }
    ensures { desk.new ≡ with_root root.now desk.old }
{
    words::copy(desk, desk::ROOT, root);
    desk[desk::WRITTEN] = 1;
}

// The request cleared, at status 0.
pub fn close(desk: &mut [u8])
    requires { Whole desk.old }
    ensures { desk.new ≡ closed desk.old }
{
    let h = desk::shape_of(desk);
    words::clear(desk, h.c_at(), h.c_len());
    desk[desk::STATUS] = u8::from(Status::Ready);
}

// All of it, for an accepted request.
pub fn settle(
    desk: &mut [u8],
    id: usize,
    leaf: u16,
    mark: u8,
    over: usize,
    h: u8,
    plan: Plan,
    root: &[u8; Sizes::DIGEST],
)
    requires whole { Whole desk.old × ((1 ≤ id) × (id ≤ ids_of desk.old)) }
    requires over_bound { (over ≤ room_of desk.old) × (length root.now ≡ digest_len) }
    requires held { Held over (blocks_for plan h) }
    ensures { desk.new ≡ settled id leaf mark (blocks_for plan.entry h) root.now desk.old }
{
    set_place(desk, id, leaf, mark);
    set_stash(desk, over, h, plan);
    set_root(desk, root);
    close(desk);
}
