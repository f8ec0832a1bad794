// The checks of each reachable item by itself: its digest, its flags, its counter. The first n items are the reachable ones.
ghost use Rattle.std.specs.Prelude.{◌≡◌, ◌&&◌, suc, ◌-◌, ◌<◌, leb};
ghost use Rattle.words.specs.Tests.{all};
ghost use Rattle.sizes.specs.Sizes.{item_of};
ghost use Rattle.items.specs.Items.{Carries, flag_of};
ghost use Rattle.items.specs.Way.{Reached};
ghost use Rattle.items.specs.Real.{real};
ghost use Rattle.opening.specs.Opening.{digest_fits, flags_fit, worn_in};

use items::View;
use sizes::Sizes;

// The counter of a worn item.
const LAST: u64 = u64::MAX;

// Whether the digests of the reachable items are the ones due.
pub fn digests_good(path: &[u8], v: View, n: usize) -> bool
    requires { Carries v.sizes path.now × Reached v path.now n }
    ensures { result ≡ all (suc v.sizes.height) (digest_fits real v path.now) }
{
    (0..n).all(|k| items::is_due(&items::item_digest(path, v.sizes, k), path, v, k))
}

// Whether both flags of an inner item are 0 or 1.
fn flags_at(path: &[u8], s: Sizes, k: usize) -> bool
    requires { Carries s path.now × (k < s.height) }
    ensures { result ≡ (leb (flag_of s (item_of s path.now k) 0) 1 && leb (flag_of s (item_of s path.now k) 1) 1) }
{
    (items::flag(path, s, k, 0) <= 1) & (items::flag(path, s, k, 1) <= 1)
}

// Whether the flags of the reachable items are.
pub fn flags_good(path: &[u8], v: View, n: usize) -> bool
    requires { Carries v.sizes path.now × Reached v path.now n }
    ensures { result ≡ all v.sizes.height (flags_fit v path.now) }
{
    let inner = n.min(v.sizes.height);
    (0..inner).all(|k| flags_at(path, v.sizes, k))
}

// Whether a reachable item has the last counter.
pub fn is_worn(path: &[u8], v: View, n: usize) -> bool
    requires { Carries v.sizes path.now × Reached v path.now n }
    ensures { result ≡ worn_in v path.now }
{
    (0..n).any(|k| items::counter(path, v.sizes, k) == LAST)
}
