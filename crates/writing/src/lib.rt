// Finish, step 6: the new items of a path, from the leaf up. The plain slots of each come from `new`, a buffer laid out as the path is, whose
// other bytes are not looked at. `n` is the number of reachable items, which are the first ones.
#![tactic(auto)]

ghost use Rattle.std.specs.Prelude.{◌≡◌, ◌<◌, ◌≤◌, [], ◌++◌, length, nat_lt};
ghost use Rattle.words.specs.Bytes.{splice};
ghost use Rattle.words.specs.Numbers.{bytes_of};
ghost use Rattle.sizes.specs.Sizes.{leaves, counter_len, digest_len, item_at, path_len};
ghost use Rattle.items.specs.Items.{Carries, slots_of};
ghost use Rattle.items.specs.Way.{item, reachable, Reached};
ghost use Rattle.items.specs.Real.{real};
ghost use Rattle.writing.specs.Writing.{new_counter};
ghost use Rattle.writing.specs.Pieces.{head_of, links_of, item_written, WrittenBy};

use items::View;
use sizes::Sizes;

// Flags and digests of an inner item.
const LINKS: usize = Sizes::FLAGS + 2 * Sizes::DIGEST;

// The counter of the item at level `k`: one more than it was if the item was reachable, else 1. It is below its end unless the path is worn.
fn next_counter(path: &[u8], v: View, n: usize, k: usize) -> u64
    requires { Carries v.sizes path.now × ((k ≤ v.sizes.height) × (reachable v path.now k ≡ nat_lt k n)) }
    ensures { bytes_of counter_len result ≡ bytes_of counter_len (new_counter real v path.now [] k) }
{
    if n <= k {
        return 1;
    }
    items::counter(path, v.sizes, k).wrapping_add(1)
}

// Counter and slots of the item at level `k`.
fn write_head(path: &mut [u8], new: &[u8], v: View, n: usize, k: usize)
    requires carries { Carries v.sizes path.old × Carries v.sizes new.now }
    requires k_le_height { (k ≤ v.sizes.height) × ((v.leaf < leaves v.sizes) × (reachable v path.old k ≡ nat_lt k n)) }
    ensures { path.new ≡ splice path.old (item_at v.sizes k) (head_of real v (new_counter real v path.old [] k) k (slots_of v.sizes (item v new.now k))) }
{
    let s = v.sizes;
    let at = s.item_at(k);
    let a = at + Sizes::COUNTER;
    let e = at + s.leaf_len();
    words::put64(path, at, next_counter(path, v, n, k));
    words::copy(path, a, &new[a..e]);
    items::cipher_slots(path, v, k);
}

// Flags and digests of the inner item at level `k`: the child on the path has flag 1 and its new digest; the sibling keeps both if this item was
// reachable and the flag was 1, else both are zero.
fn links(path: &[u8], v: View, n: usize, k: usize, d: &[u8; Sizes::DIGEST]) -> [u8; LINKS]
    requires carries { Carries v.sizes path.now × ((k < v.sizes.height) × (reachable v path.now k ≡ nat_lt k n)) }
    requires d_len { length d.now ≡ digest_len }
    ensures { result ≡ links_of v path.now k d.now }
{
    let s = v.sizes;
    let on = s.side(v.leaf, k);
    let other = 1 - on;
    let mut r = [0u8; LINKS];
    r[on] = 1;
    words::copy(&mut r, Sizes::FLAGS + Sizes::DIGEST * on, d);
    let kept = (k < n) & (items::flag(path, s, k, other) == 1);
    if !kept {
        return r;
    }
    r[other] = 1;
    let a = s.inner_at(k) + s.leaf_len() + Sizes::FLAGS + Sizes::DIGEST * other;
    let e = a + Sizes::DIGEST;
    words::copy(&mut r, Sizes::FLAGS + Sizes::DIGEST * other, &path[a..e]);
    r
}

// The inner item at level `k`, above a child of digest `d`.
fn write_inner(path: &mut [u8], new: &[u8], v: View, n: usize, k: usize, d: &[u8; Sizes::DIGEST])
    requires carries { Carries v.sizes path.old × Carries v.sizes new.now }
    requires k_lt_height { (k < v.sizes.height) × ((v.leaf < leaves v.sizes) × (reachable v path.old k ≡ nat_lt k n)) }
    requires d_len { length d.now ≡ digest_len }
    ensures { path.new ≡ splice path.old (item_at v.sizes k) (head_of real v (new_counter real v path.old [] k) k (slots_of v.sizes (item v new.now k)) ++ links_of v path.old k d.now) }
{
    let tail = links(path, v, n, k, d);
    write_head(path, new, v, n, k);
    words::copy(path, v.sizes.inner_at(k) + v.sizes.leaf_len(), &tail);
}

// The item at level `k`, above a child of digest `d` if it is an inner one.
fn write_item(path: &mut [u8], new: &[u8], v: View, n: usize, k: usize, d: &[u8; Sizes::DIGEST])
    requires carries { Carries v.sizes path.old × Carries v.sizes new.now }
    requires k_le_height { (k ≤ v.sizes.height) × ((v.leaf < leaves v.sizes) × (reachable v path.old k ≡ nat_lt k n)) }
    requires d_len { length d.now ≡ digest_len }
    ensures { path.new ≡ splice path.old (item_at v.sizes k) (item_written v path.old new.now k d.now) }
{
    let s = v.sizes;
    if k < s.height {
        write_inner(path, new, v, n, k, d);
        return;
    }
    write_head(path, new, v, n, k);
}

// The whole path, from the leaf up; the result is the new root digest.
pub fn write_path(path: &mut [u8], new: &[u8], v: View, n: usize) -> [u8; Sizes::DIGEST]
    requires carries { Carries v.sizes path.old × (length path.old ≡ path_len v.sizes) }
    requires carries_2 { Carries v.sizes new.now × ((v.leaf < leaves v.sizes) × Reached v path.old n) }
    ensures { WrittenBy v path.old new.now path.new result }
{
    let s = v.sizes;
    let mut d = [0u8; Sizes::DIGEST];
    for k in (0..s.height + 1).rev() {
        write_item(path, new, v, n, k, &d);
        d = items::item_digest(path, s, k);
    }
    d
}
