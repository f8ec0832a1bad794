// A sheet passed through the store, entry by entry. Assumes nothing.
#![tactic(auto)]

ghost use Rattle.std.specs.Prelude.{◌≡◌, ◌-◌, ◌*◌, ◌≤◌, length, Ok};
ghost use Rattle.sizes.specs.Sizes.{record_len};
ghost use Rattle.book.specs.MatrixRow.{row_checked};
ghost use Rattle.passing.specs.Passing.{kind_of, requested_entry, request_entry, passed, pass_from, sheet_passed, pass_of};

use desk::Kind;
use sizes::{Refusal, Sizes};

// A record is written; where there is none, the id's is read.
fn kind_of(entry: &[u8]) -> Kind
    requires { length entry.now ≡ record_len }
    ensures { result ≡ kind_of entry.now }
{
    if sheets::is_record(entry) {
        return Kind::Write;
    }
    Kind::Read
}

// One request of an id, with its entry as the record.
fn request_entry(
    desk: &mut [u8],
    tree: &mut [u8],
    path: &mut [u8],
    entry: &mut [u8],
    id: u16,
    draw: u16,
) -> Result<(), Refusal>
    requires { length entry.old ≡ record_len }
    ensures { requested_entry result desk.new tree.new path.new entry.new ≡ request_entry desk.old tree.old path.old entry.old id draw }
{
    let kind = kind_of(entry);
    let (_, finished) = requests::request(desk, tree, path, entry, kind, id, draw)?;
    finished?;
    Ok(())
}

// One request for each id of a range, rising, whatever the sheet holds.
fn pass(
    desk: &mut [u8],
    tree: &mut [u8],
    path: &mut [u8],
    sheet: &mut [u8],
    first: u16,
    end: u16,
    draws: &[u16],
) -> Result<(), Refusal>
    requires { (first ≤ end) × (length draws.now ≡ end - first) × (length sheet.old ≡ (end - first) * record_len) }
    ensures { passed result desk.new tree.new path.new sheet.new ≡ pass_from first 0 draws.now desk.old tree.old path.old sheet.old }
{
    for id in first..end {
        let i = (id - first) as usize;
        let at = i * Sizes::RECORD;
        let draw = draws[i];
        request_entry(
            desk,
            tree,
            path,
            &mut sheet[at..at + Sizes::RECORD],
            id,
            draw,
        )?;
    }
    Ok(())
}

// A sheet of a range that was checked, with a path that begins as zeros.
pub fn pass_all(
    desk: &mut [u8],
    tree: &mut [u8],
    sheet: &mut [u8],
    first: u16,
    end: u16,
    draws: &[u16],
) -> Result<(), Refusal>
    requires { (row_checked desk.old tree.old first end draws.now ≡ Ok tt) × (length sheet.old ≡ (end - first) * record_len) }
    ensures { sheet_passed result desk.new tree.new sheet.new ≡ pass_of desk.old tree.old first draws.now sheet.old }
{
    let n = desk::sizes_of(desk).path_len();
    let mut path = [0u8; Sizes::MOST_PATH];
    pass(desk, tree, &mut path[..n], sheet, first, end, draws)
}
