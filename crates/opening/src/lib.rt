// Finish, steps 1 and 2: what of a path is reachable, its slots opened into a working copy, the checks; and the lookup of an id.
#![tactic(auto)]

ghost use Rattle.std.specs.Prelude.{◌≡◌, suc, ◌≤◌, ◌<◌, length};
ghost use Rattle.sizes.specs.Sizes.{InRange, leaves, path_len, most_path};
ghost use Rattle.desk.specs.Readers.{id_asked};
ghost use Rattle.opening.specs.Opening.{view_of};
ghost use Rattle.opening.specs.Walk.{OpenDesk, Unsealed, Opens};

use items::View;
use sizes::Sizes;

mod checks;
mod seek;
mod table;

pub use checks::is_worn;
pub use seek::lookup;
pub use table::{is_marked, stash_count, stash_slots};

// The id that was asked for.
pub fn id_asked(desk: &[u8]) -> usize
    requires { OpenDesk desk.now }
    ensures { result ≡ id_asked desk.now }
{
    usize::from(words::get16(desk, desk::shape_of(desk).c_at() + desk::ID_IN))
}

// What the steps of finish read from a desk.
pub fn view(desk: &[u8]) -> View
    requires { OpenDesk desk.now }
    ensures { result ≡ view_of desk.now }
{
    let a = desk::B_AT;
    let m = desk::ROOT;
    let e = desk::ROOT + Sizes::DIGEST;
    let mut key = [0u8; desk::KEY];
    words::copy(&mut key, 0, &desk[a..m]);
    let mut root = [0u8; Sizes::DIGEST];
    words::copy(&mut root, 0, &desk[m..e]);
    View {
        sizes: desk::sizes_of(desk),
        key,
        written: desk[desk::WRITTEN],
        root,
        leaf: usize::from(desk::position(desk, id_asked(desk))),
    }
}

// The path goes into the lent working copy, and the slots of its first `n` items are opened there.
fn open_slots(w: &mut [u8], path: &[u8], v: View, n: usize)
    requires in_range { InRange v.sizes × ((length path.now ≡ path_len v.sizes) × (v.leaf < leaves v.sizes)) }
    requires n_bound { (n ≤ suc v.sizes.height) × (length w.old ≡ most_path) }
    ensures { Unsealed v path.now n w.new }
{
    words::copy(w, 0, path);
    for k in 0..n {
        items::cipher_slots(w, v, k);
    }
}

// Steps 1 and 2, whole: how many items are reachable, in Ok where all checks pass, and in Err where one fails. The opened slots are left in the lent
// working copy.
pub fn open_path(desk: &[u8], path: &[u8], v: View, w: &mut [u8]) -> Result<usize, usize>
    requires open_desk { OpenDesk desk.now × ((v ≡ view_of desk.now) × (length path.now ≡ path_len v.sizes)) }
    requires w_len { length w.old ≡ most_path }
    ensures { Opens desk.now path.now w.new result }
{
    let n = items::reach(path, v);
    let d = checks::digests_good(path, v, n);
    let f = checks::flags_good(path, v, n);
    open_slots(w, path, v, n);
    let s = table::slots_good(desk, w, v, n);
    if d & f & s { Ok(n) } else { Err(n) }
}
