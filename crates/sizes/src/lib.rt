// Sizes: lengths and places on the server's side from the height and the slots of a bucket alone, the desk's length, and the refusals.
#![tactic(auto)]

ghost use Rattle.std.specs.Prelude.{◌≡◌, ◌+◌, ◌*◌, ◌^◌, ◌≤◌, ◌<◌};
ghost use Rattle.sizes.specs.Sizes as spec;
ghost use Rattle.sizes.specs.Places.{ItemAt, InnerAt, InTree};
ghost use Rattle.sizes.specs.Refusals.{number_of};

// The paper's eleven, in the order of their numbers. The checks of an entry answer with the first that applies.
#[derive(Clone, Copy, Debug, PartialEq, Eq)]
pub enum Refusal {
    BadDesk,
    Stopped,
    Open,
    NotOpen,
    BadId,
    BadLeaf,
    BadLength,
    BadSize,
    Forged,
    Worn,
    Full,
}

impl From<Refusal> for u8 {
    ghost from_gives = { λ r n. n ≡ number_of r };

    fn from(r: Refusal) -> u8 {
        match r {
            Refusal::BadDesk => 1,
            Refusal::Stopped => 2,
            Refusal::Open => 3,
            Refusal::NotOpen => 4,
            Refusal::BadId => 5,
            Refusal::BadLeaf => 6,
            Refusal::BadLength => 7,
            Refusal::BadSize => 8,
            Refusal::Forged => 9,
            Refusal::Worn => 10,
            Refusal::Full => 11,
        }
    }
}

#[derive(Clone, Copy, Debug, PartialEq, Eq)]
pub struct Sizes {
    pub height: usize,
    pub slots: usize,
}

// 2 to the power of a level.
fn power(k: usize) -> usize
    requires { k ≤ 12 }
    ensures { (result ≡ 2 ^ k) × ((1 ≤ result) × (result ≤ 4096)) }
{
    1usize << k
}

impl Sizes {
    pub const MOST_HEIGHT: usize = 12;

    pub const MOST_SLOTS: usize = 8;

    pub const MOST_ROOM: usize = 255;

    pub const MOST_IDS: usize = 4096;

    pub const MOST_PATH: usize = 7968;

    pub const RECORD: usize = 64;

    pub const SLOT_HEAD: usize = 4;

    // Where the leaf stands in a slot, behind the id.
    pub const LEAF_IN: usize = 2;

    pub const SLOT: usize = Self::SLOT_HEAD + Self::RECORD;

    pub const COUNTER: usize = 8;

    pub const FLAGS: usize = 2;

    pub const DIGEST: usize = 32;

    // What an inner item has beside its slots.
    pub const HEADER: usize = Self::COUNTER + Self::FLAGS + 2 * Self::DIGEST;

    // The sizes that two bytes name, in range or not.
    pub fn of(height: u8, slots: u8) -> Self
        ensures { result ≡ spec.sized height slots }
    {
        Sizes {
            height: usize::from(height),
            slots: usize::from(slots),
        }
    }

    // Whether both are in range.
    pub fn good(self) -> bool
        ensures { result ≡ spec.sizes_good self }
    {
        (1 <= self.height)
            & (self.height <= Self::MOST_HEIGHT)
            & (1 <= self.slots)
            & (self.slots <= Self::MOST_SLOTS)
    }

    // How many leaves the tree has.
    pub fn leaves(self) -> usize
        requires { spec.InRange self }
        ensures { (result ≡ spec.leaves self) × ((1 ≤ result) × (result ≤ 4096)) }
    {
        power(self.height)
    }

    // The length of a leaf's item, and of an inner one.
    pub fn leaf_len(self) -> usize
        requires { spec.InRange self }
        ensures { result ≡ spec.leaf_len self }
    {
        Self::COUNTER + Self::SLOT * self.slots
    }

    pub fn inner_len(self) -> usize
        requires { spec.InRange self }
        ensures { result ≡ spec.inner_len self }
    {
        Self::HEADER + Self::SLOT * self.slots
    }

    // The length of the item at level `k`.
    pub fn item_len(self, k: usize) -> usize
        requires { spec.InRange self }
        ensures { result ≡ spec.item_len self k }
    {
        if k < self.height {
            return self.inner_len();
        }
        self.leaf_len()
    }

    // Where the item at level `k` of a path starts.
    pub fn item_at(self, k: usize) -> usize
        requires { spec.InRange self × (k ≤ self.height) }
        ensures { ItemAt self k result }
    {
        k * self.inner_len()
    }

    // The same of an inner item, of which more is known to lie in the path. Not a further clause of `item_at`: each caller would cite a half of a pair.
    pub fn inner_at(self, k: usize) -> usize
        requires { spec.InRange self × (k < self.height) }
        ensures { InnerAt self k result }
    {
        self.item_at(k)
    }

    pub fn path_len(self) -> usize
        requires { spec.InRange self }
        ensures { result ≡ spec.path_len self }
    {
        self.item_at(self.height) + self.leaf_len()
    }

    // The bucket at level `k` of the path to `leaf`.
    pub fn bucket(self, leaf: usize, k: usize) -> usize
        requires { spec.InRange self × ((k ≤ self.height) × (leaf < spec.leaves self)) }
        ensures { (result ≡ spec.bucket_at self leaf k) × (result < spec.bucket_count self) }
    {
        power(k) - 1 + (leaf >> (self.height - k))
    }

    // The side on which the path to `leaf` goes on below level `k`: 0 left, 1 right.
    pub fn side(self, leaf: usize, k: usize) -> usize
        requires { spec.InRange self × (k < self.height) }
        ensures { (result ≡ spec.side_at self leaf k) × (result ≤ 1) }
    {
        (leaf >> (self.height - 1 - k)) % 2
    }

    // Where bucket `b` stands in the tree.
    fn tree_at(self, b: usize) -> usize
        requires { spec.InRange self × (b < spec.bucket_count self) }
        ensures { result ≡ spec.tree_at self b }
    {
        let inners = self.leaves() - 1;
        if b < inners {
            return b * self.inner_len();
        }
        inners * self.inner_len() + (b - inners) * self.leaf_len()
    }

    // Where the item at level `k` of the path to `leaf` stands in the tree.
    pub fn in_tree(self, leaf: usize, k: usize) -> usize
        requires { spec.InRange self × ((k ≤ self.height) × (leaf < spec.leaves self)) }
        ensures { InTree self leaf k result }
    {
        self.tree_at(self.bucket(leaf, k))
    }

    pub fn tree_len(self) -> usize
        requires { spec.InRange self }
        ensures { result ≡ spec.tree_len self }
    {
        let leaves = self.leaves();
        (leaves - 1) * self.inner_len() + leaves * self.leaf_len()
    }
}
