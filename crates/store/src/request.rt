// The open request as a desk holds it, and what its kind and the id's mark make of it.
ghost use Rattle.std.specs.Prelude.{◌≡◌, List, true, ℕ, suc, ◌≤◌, length};
ghost use Rattle.sizes.specs.Sizes.{most_path, record_len};
ghost use Rattle.desk.specs.Readers.{kind_asked, id_asked, new_leaf, record_asked, is_marked};
ghost use Rattle.items.specs.Way.{Reached};
ghost use Rattle.opening.specs.Opening.{view_of};
ghost use Rattle.opening.specs.Walk.{OpenDesk, Unsealed};
ghost use Rattle.store.specs.Steps.{answer_for, buffer_for};
ghost use Rattle.store.specs.Carried.{is_found, is_there, carried_on};
ghost use Rattle.store.specs.Ready.{carried_of};

use crate::Finished;
use desk::Kind;
use items::View;
use sizes::Sizes;

pub fn kind_asked(desk: &[u8]) -> Kind
    requires { OpenDesk desk.now }
    ensures { result ≡ kind_asked desk.now }
{
    let a = desk::shape_of(desk).c_at() + desk::KIND_IN;
    if desk[a] == 0 {
        return Kind::Read;
    }
    Kind::Write
}

// Whether the id asked for was marked when it was asked for.
pub fn was_marked(desk: &[u8]) -> bool
    requires { OpenDesk desk.now }
    ensures { result ≡ is_marked desk.now (id_asked desk.now) }
{
    opening::is_marked(desk, opening::id_asked(desk))
}

pub fn new_leaf(desk: &[u8]) -> u16
    requires { OpenDesk desk.now }
    ensures { result ≡ new_leaf desk.now }
{
    words::get16(desk, desk::shape_of(desk).c_at() + desk::NEW_LEAF_IN)
}

pub fn record_asked(desk: &[u8]) -> &[u8]
    requires { OpenDesk desk.now }
    ensures { result.now ≡ record_asked desk.now }
{
    let a = desk::shape_of(desk).c_at() + desk::REQUEST_HEAD;
    let e = a + Sizes::RECORD;
    &desk[a..e]
}

// Whether a record is handed out: for a read of a marked id.
pub fn is_found(kind: Kind, marked: bool) -> bool
    ensures { result ≡ is_found kind marked }
{
    match kind {
        Kind::Read => marked,
        Kind::Write => false,
    }
}

// Whether there is a block to place, and the id is marked then: a read of an id that was never written has none.
pub fn is_there(kind: Kind, marked: bool) -> bool
    ensures { result ≡ is_there kind marked }
{
    match kind {
        Kind::Read => marked,
        Kind::Write => true,
    }
}

pub fn answer_for(kind: Kind, marked: bool) -> Finished
    ensures { result ≡ answer_for kind marked }
{
    if is_found(kind, marked) {
        return Finished::Record;
    }
    if is_there(kind, marked) {
        return Finished::Done;
    }
    Finished::Never
}

// The record that the requested block carries on: the one found for a read of a marked id, or else the request's.
pub fn carried<'a>(desk: &'a [u8], w: &'a [u8], v: View, n: usize) -> &'a [u8]
    requires open_desk { OpenDesk desk.now × ((v ≡ view_of desk.now) × (n ≤ suc v.sizes.height)) }
    requires w_len { length w.now ≡ most_path }
    ensures { (path : List ℕ) → Reached v path n → Unsealed v path n w.now → result.now ≡ carried_of desk.now path }
{
    if is_found(kind_asked(desk), was_marked(desk)) {
        return opening::lookup(desk, w, v, n, opening::id_asked(desk));
    }
    record_asked(desk)
}

// The record found goes to the lent buffer, for a read of a marked id.
pub fn hand_out(record: &mut [u8], carried: &[u8], kind: Kind, marked: bool)
    requires { (length «record».old ≡ record_len) × (length carried.now ≡ record_len) }
    ensures { (found asked : List ℕ) → carried.now ≡ carried_on kind marked found asked → «record».new ≡ buffer_for kind marked found «record».old }
{
    if is_found(kind, marked) {
        words::copy(record, 0, carried);
    }
}
