// The C interface: numbers and slices only. Every function takes all inputs; a refusal is its number, negative.
#![tactic(auto)]

ghost use Rattle.std.specs.Prelude.{◌≡◌, []};
ghost use Rattle.std.specs.Int.{w32};
ghost use Rattle.std.proofs.Common.{SFits};
ghost use Rattle.desk.specs.declared.Kind.TheVariants.{Read, Write};
ghost use Rattle.asks.specs.Ask.{ask_of};
ghost use Rattle.formats.specs.Format.{format_of};
ghost use Rattle.items.specs.Real.{real};
ghost use Rattle.store.specs.Finish.{finish_of};
ghost use Rattle.sizes.specs.Sizes.{sized, path_len, tree_len};
ghost use Rattle.digest_sha2.specs.Sha256.{sha256};
ghost use Rattle.chacha20.specs.ChaCha.{cipher};
ghost use Rattle.tree.specs.Tree.{fetch_of, put_of};
ghost use Rattle.exports.specs.Codes.{refusal_code, outcome_code, asked_code, finished_code, length_by, desk_length, Answered, Finishes};

use desk::{Kind, Shape};
use sizes::{Refusal, Sizes};
use store::Finished;

pub mod books;
pub mod taps;

// A refusal's number, negative.
fn refused(r: Refusal) -> i32
    ensures { result ≡ refusal_code r }
{
    -(u8::from(r) as i32)
}

fn done(o: Result<(), Refusal>) -> i32
    ensures { result ≡ outcome_code o }
{
    match o {
        Ok(()) => 0,
        Err(r) => refused(r),
    }
}

fn asked(a: Result<u16, Refusal>) -> i32
    ensures { (result ≡ asked_code a) × SFits w32 result }
{
    match a {
        Ok(p) => p as i32,
        Err(r) => refused(r),
    }
}

fn finished(f: Result<Finished, Refusal>) -> i32
    ensures { (result ≡ finished_code f) × SFits w32 result }
{
    match f {
        Ok(Finished::Record) => 1,
        Ok(Finished::Never) => 2,
        Ok(Finished::Done) => 3,
        Err(r) => refused(r),
    }
}

#[unsafe(no_mangle)]
pub extern "C" fn bawnaroy_desk_length(ids: u16, stash: u8) -> usize
    ensures { result ≡ desk_length ids stash }
{
    let n = ids as usize;
    if !desk::ids_good(n) {
        return 0;
    }
    Shape::new(ids, stash).len()
}

#[unsafe(no_mangle)]
pub extern "C" fn bawnaroy_path_length(height: u8, slots: u8) -> usize
    ensures { result ≡ length_by path_len (sized height slots) }
{
    let s = Sizes::of(height, slots);
    if !s.good() {
        return 0;
    }
    s.path_len()
}

#[unsafe(no_mangle)]
pub extern "C" fn bawnaroy_tree_length(height: u8, slots: u8) -> usize
    ensures { result ≡ length_by tree_len (sized height slots) }
{
    let s = Sizes::of(height, slots);
    if !s.good() {
        return 0;
    }
    s.tree_len()
}

#[unsafe(no_mangle)]
pub extern "C" fn bawnaroy_format(
    desk: &mut [u8],
    height: u8,
    slots: u8,
    stash: u8,
    ids: u16,
    key: &[u8],
    leaves: &[u16],
) -> i32
    ensures { Answered result desk.new (outcome_code (format_of desk.old height slots stash ids key.now leaves.now).answer) (format_of desk.old height slots stash ids key.now leaves.now).desk }
{
    done(formats::format(desk, height, slots, stash, ids, key, leaves))
}

// A read has no record; none is looked at.
#[unsafe(no_mangle)]
pub extern "C" fn bawnaroy_ask_read(desk: &mut [u8], id: u16, leaf: u16) -> i32
    ensures { Answered result desk.new (asked_code (ask_of desk.old Read id leaf []).answer) (ask_of desk.old Read id leaf []).desk }
{
    asked(asks::ask(desk, Kind::Read, id, leaf, b""))
}

#[unsafe(no_mangle)]
pub extern "C" fn bawnaroy_ask_write(desk: &mut [u8], id: u16, leaf: u16, record: &[u8]) -> i32
    ensures { Answered result desk.new (asked_code (ask_of desk.old Write id leaf «record».now).answer) (ask_of desk.old Write id leaf «record».now).desk }
{
    asked(asks::ask(desk, Kind::Write, id, leaf, record))
}

#[unsafe(no_mangle)]
pub extern "C" fn bawnaroy_finish(desk: &mut [u8], path: &mut [u8], record: &mut [u8]) -> i32
    ensures { Finishes result desk.new path.new «record».new (finish_of real desk.old path.old «record».old) }
{
    finished(store::finish(desk, path, record))
}

#[unsafe(no_mangle)]
pub extern "C" fn bawnaroy_fetch(
    tree: &[u8],
    height: u8,
    slots: u8,
    leaf: u16,
    path: &mut [u8],
) -> i32
    ensures { Answered result path.new (outcome_code (fetch_of (sized height slots) leaf tree.now path.old).answer) (fetch_of (sized height slots) leaf tree.now path.old).path }
{
    done(tree::fetch(tree, height, slots, leaf, path))
}

#[unsafe(no_mangle)]
pub extern "C" fn bawnaroy_put(
    tree: &mut [u8],
    height: u8,
    slots: u8,
    leaf: u16,
    path: &[u8],
) -> i32
    ensures { Answered result tree.new (outcome_code (put_of (sized height slots) leaf tree.old path.now).answer) (put_of (sized height slots) leaf tree.old path.now).tree }
{
    done(tree::put(tree, height, slots, leaf, path))
}

#[unsafe(no_mangle)]
pub extern "C" fn bawnaroy_sha256(msg: &[u8], out: &mut [u8; 32])
    ensures { out.new ≡ sha256 msg.now }
{
    *out = sha256::digest(msg);
}

#[unsafe(no_mangle)]
pub extern "C" fn bawnaroy_chacha20(key: &[u8; 32], nonce: &[u8; 12], text: &mut [u8])
    ensures { text.new ≡ cipher key.now nonce.now text.old }
{
    chacha20::apply(key, nonce, text);
}
