// The tree's side: fetch copies the items of a leaf's path from tree to path, root first; put copies them back.
// Both take every input, and refuse before a byte is written.
#![tactic(auto)]

ghost use Rattle.std.specs.Prelude.{◌≡◌, ◌+◌, ◌≤◌, suc, length};
ghost use Rattle.words.specs.Bytes.{splice};
ghost use Rattle.sizes.specs.Sizes.{sized};
ghost use Rattle.tree.specs.Tree.{Fits, tree_checked, fetched, put_back, fetch_of, put_of, tree_result};

use sizes::{Refusal, Sizes};

// The checks of both, in the paper's order.
fn checked(tree: &[u8], s: Sizes, leaf: usize, path: &[u8]) -> Result<(), Refusal>
    ensures { result ≡ tree_checked s leaf tree.now path.now }
{
    if !s.good() {
        return Err(Refusal::BadSize);
    }
    if s.leaves() <= leaf {
        return Err(Refusal::BadLeaf);
    }
    let fits = (tree.len() == s.tree_len()) & (path.len() == s.path_len());
    if !fits {
        return Err(Refusal::BadLength);
    }
    Ok(())
}

// Not inlined: so the loop over the items keeps less on the stack, of which tests/stack/limits leaves little.
#[inline(never)]
fn copy(dst: &mut [u8], at: usize, src: &[u8])
    requires { at + length src.now ≤ length dst.old }
    ensures { dst.new ≡ splice dst.old at src.now }
{
    words::copy(dst, at, src);
}

// The items of the path, from tree to path.
fn copy_out(tree: &[u8], s: Sizes, leaf: usize, path: &mut [u8])
    requires { Fits s leaf tree.now path.old }
    ensures { path.new ≡ fetched s leaf tree.now (suc s.height) }
{
    let items = s.height + 1;
    for k in 0..items {
        let from = s.in_tree(leaf, k);
        let to = from + s.item_len(k);
        copy(path, s.item_at(k), &tree[from..to]);
    }
}

// The items of the path, from path to tree.
fn copy_in(tree: &mut [u8], s: Sizes, leaf: usize, path: &[u8])
    requires { Fits s leaf tree.old path.now }
    ensures { tree.new ≡ put_back s leaf path.now tree.old (suc s.height) }
{
    let end = s.height + 1;
    for k in 0..end {
        let from = s.item_at(k);
        let to = from + s.item_len(k);
        copy(tree, s.in_tree(leaf, k), &path[from..to]);
    }
}

pub fn fetch(tree: &[u8], height: u8, slots: u8, leaf: u16, path: &mut [u8]) -> Result<(), Refusal>
    ensures { tree_result result tree.now path.new ≡ fetch_of (sized height slots) leaf tree.now path.old }
{
    let s = Sizes::of(height, slots);
    let l = leaf as usize;
    checked(tree, s, l, path)?;
    copy_out(tree, s, l, path);
    Ok(())
}

pub fn put(tree: &mut [u8], height: u8, slots: u8, leaf: u16, path: &[u8]) -> Result<(), Refusal>
    ensures { tree_result result tree.new path.now ≡ put_of (sized height slots) leaf tree.old path.now }
{
    let s = Sizes::of(height, slots);
    let l = leaf as usize;
    checked(tree, s, l, path)?;
    copy_in(tree, s, l, path);
    Ok(())
}
