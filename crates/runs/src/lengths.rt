// How long the desk, the tree and a path of a store are, and the most that they can be on the shelf. Assumes nothing.
ghost use Rattle.std.specs.Prelude.{◌≡◌, ◌≤◌};
ghost use Rattle.sizes.specs.Sizes.{most_ids};
ghost use Rattle.runs.specs.Shelf.{desk_len_of, tree_len_of, path_len_of, most_desk, most_tree, most_path};
ghost use Rattle.runs.specs.Run.{Roomy};

use desk::Shape;
use setup::Store;
use sizes::Sizes;

// The most bytes that the shelf's desk, tree and path can have, of height 3, 8 slots, 255 blocks in the stash and 4,096 ids.
pub const MOST_DESK: usize = 29814;

pub const MOST_TREE: usize = 8742;

pub const MOST_PATH: usize = 2406;

pub fn desk_len(store: Store) -> usize
    requires { store.ids ≤ most_ids }
    ensures { (result ≡ desk_len_of store) × (result ≤ most_desk) }
{
    Shape::new(store.ids, store.room).len()
}

pub fn tree_len(store: Store) -> usize
    requires { Roomy store }
    ensures { (result ≡ tree_len_of store) × (result ≤ most_tree) }
{
    Sizes::of(store.height, store.slots).tree_len()
}

pub fn path_len(store: Store) -> usize
    requires { Roomy store }
    ensures { (result ≡ path_len_of store) × (result ≤ most_path) }
{
    Sizes::of(store.height, store.slots).path_len()
}
