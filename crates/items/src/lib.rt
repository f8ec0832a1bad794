// One item of a path: its fields, its digest, its slots under the cipher. A path is lent as a slice that begins with it.
#![tactic(auto)]

ghost use Rattle.std.specs.Prelude.{◌≡◌, cond, ◌+◌, ◌≤◌, ◌<◌, length, eqb};
ghost use Rattle.words.specs.Bytes.{part, splice, zeros, same};
ghost use Rattle.sizes.specs.Sizes.{leaves, counter_len, digest_len, item_at, item_of};
ghost use Rattle.sha256.specs.Stream.{Grown};
ghost use Rattle.items.specs.Items.{Carries, counter_of, slots_of, flag_of, item_digest, nonce_of, slots_opened};
ghost use Rattle.items.specs.Way.{item, bucket, Reached, digest_due};
ghost use Rattle.items.specs.Real.{real};

use sha256::Hasher;
use sizes::Sizes;

// What the steps of finish read from a desk: the sizes, the key, root written, the root digest, and the leaf that was asked for.
#[derive(Clone, Copy, Drop)]
pub struct View {
    pub sizes: Sizes,
    pub key: [u8; 32],
    // As the desk's byte is, and no bool: `cipher_slots` and what else takes a view ask nothing of it.
    pub written: u8,
    pub root: [u8; Sizes::DIGEST],
    pub leaf: usize,
}

// The bytes of a bucket's number in a nonce, and of a nonce.
const BUCKET: usize = 4;

const NONCE: usize = Sizes::COUNTER + BUCKET;

// A child's digest taken in, as zeros where its flag is 0.
fn child(h: Hasher, flag: u8, digest: &[u8]) -> Hasher
    ensures { Grown h (cond (eqb flag 0) (zeros digest_len) digest.now) result }
{
    if flag == 0 {
        let none = [0u8; Sizes::DIGEST];
        return h.absorb(&none);
    }
    h.absorb(digest)
}

// The digest of the inner item at level `k`, taken where it lies.
fn inner_digest(path: &[u8], s: Sizes, k: usize) -> [u8; Sizes::DIGEST]
    requires { Carries s path.now × (k < s.height) }
    ensures { result ≡ item_digest real s k (item_of s path.now k) }
{
    let at = s.inner_at(k);
    let f = at + s.leaf_len();
    let m = f + Sizes::FLAGS;
    let e = m + Sizes::DIGEST;
    let n = e + Sizes::DIGEST;
    let body = Hasher::new().absorb(&path[at..m]);
    let left = child(body, path[f], &path[m..e]);
    let right = child(left, path[f + 1], &path[e..n]);
    right.finish()
}

// The digest of the item at level `k`.
pub fn item_digest(path: &[u8], s: Sizes, k: usize) -> [u8; Sizes::DIGEST]
    requires { Carries s path.now × (k ≤ s.height) }
    ensures { result ≡ item_digest real s k (item_of s path.now k) }
{
    if k < s.height {
        return inner_digest(path, s, k);
    }
    let at = s.item_at(k);
    let e = at + s.leaf_len();
    sha256::digest(&path[at..e])
}

// The flag of the inner item at level `k` for its child on a side.
pub fn flag(path: &[u8], s: Sizes, k: usize, side: usize) -> u8
    requires { Carries s path.now × ((k < s.height) × (side ≤ 1)) }
    ensures { result ≡ flag_of s (item_of s path.now k) side }
{
    let a = s.inner_at(k) + s.leaf_len() + side;
    path[a]
}

// The counter of the item at level `k`.
pub fn counter(path: &[u8], s: Sizes, k: usize) -> u64
    requires { Carries s path.now × (k ≤ s.height) }
    ensures { result ≡ counter_of (item_of s path.now k) }
{
    words::get64(path, s.item_at(k))
}

// The slots of the item at level `k`.
pub fn slots(path: &[u8], s: Sizes, k: usize) -> &[u8]
    requires { Carries s path.now × (k ≤ s.height) }
    ensures { result.now ≡ slots_of s (item_of s path.now k) }
{
    let at = s.item_at(k);
    let a = at + Sizes::COUNTER;
    let e = at + s.leaf_len();
    &path[a..e]
}

// The nonce of the item at `at`, whose bucket is given.
fn nonce(path: &[u8], at: usize, bucket: usize) -> [u8; NONCE]
    requires { at + counter_len ≤ length path.now }
    ensures { result ≡ nonce_of (part path.now at counter_len) bucket }
{
    let e = at + Sizes::COUNTER;
    let mut n = [0u8; NONCE];
    words::copy(&mut n, 0, &path[at..e]);
    words::put_number(&mut n, Sizes::COUNTER, BUCKET, bucket as u64);
    n
}

// The slots of the item at level `k` under the cipher: opened where they were sealed, and sealed where they were open.
pub fn cipher_slots(path: &mut [u8], v: View, k: usize)
    requires { Carries v.sizes path.old × ((k ≤ v.sizes.height) × (v.leaf < leaves v.sizes)) }
    ensures { path.new ≡ splice path.old (item_at v.sizes k + counter_len) (slots_opened real v.sizes v.key (bucket v k) (item v path.old k)) }
{
    let s = v.sizes;
    let key = v.key;
    let at = s.item_at(k);
    let n = nonce(path, at, s.bucket(v.leaf, k));
    let a = at + Sizes::COUNTER;
    let e = at + s.leaf_len();
    chacha20::apply(&key, &n, &mut path[a..e]);
}

// How many items are reachable: they are the first ones.
pub fn reach(path: &[u8], v: View) -> usize
    requires { Carries v.sizes path.now }
    ensures { Reached v path.now result }
{
    if v.written != 1 {
        return 0;
    }
    let s = v.sizes;
    for k in 0..s.height {
        if flag(path, s, k, s.side(v.leaf, k)) != 1 {
            return k + 1;
        }
    }
    s.height + 1
}

// Whether `d` is the digest that the item at level `k` must have: the root digest, or the digest in its parent.
pub fn is_due(d: &[u8], path: &[u8], v: View, k: usize) -> bool
    requires { Carries v.sizes path.now × (k ≤ v.sizes.height) }
    ensures { result ≡ same d.now (digest_due v path.now k) }
{
    if k == 0 {
        let root = v.root;
        return words::same(d, &root);
    }
    let s = v.sizes;
    let j = k - 1;
    let a = s.inner_at(j) + s.leaf_len() + Sizes::FLAGS + Sizes::DIGEST * s.side(v.leaf, j);
    let e = a + Sizes::DIGEST;
    words::same(d, &path[a..e])
}
