// The verdict book above the store: verdicts in records, and a matrix row of them, read through the store id by id. Assumes nothing.
#![tactic(auto)]

ghost use Rattle.std.specs.Prelude.{◌≡◌, ◌+◌, ◌-◌, ◌≤◌, length};
ghost use Rattle.verdicts.specs.Cells.{no_counts};
ghost use Rattle.book.specs.MatrixRow.{row_checked, looked, read_of, ran, row_from, rowed, row_of};

use desk::Kind;
use sizes::{Refusal, Sizes};
use verdicts::counts;
use verdicts::counts::{Cell, Counts, Row};

// The refusals of a row before any ask, in order.
pub fn row_checked(
    desk: &[u8],
    tree: &[u8],
    first: u16,
    end: u16,
    draws: &[u16],
) -> Result<(), Refusal>
    ensures { result ≡ row_checked desk.now tree.now first end draws.now }
{
    if !desk::good(desk) {
        return Err(Refusal::BadDesk);
    }
    let h = desk::shape_of(desk);
    let range_good = (1 <= first) & (first < end) & (end as usize <= h.n + 1);
    if !range_good {
        return Err(Refusal::BadId);
    }
    let fit = (draws.len() == (end - first) as usize)
        & (tree.len() == desk::sizes_of(desk).tree_len());
    if !fit {
        return Err(Refusal::BadLength);
    }
    Ok(())
}

// A read of one id through the store.
fn read_one(
    desk: &mut [u8],
    tree: &mut [u8],
    path: &mut [u8],
    record: &mut [u8],
    chapter: u8,
    id: u16,
    draw: u16,
) -> Result<Cell, Refusal>
    ensures { looked result desk.new tree.new path.new «record».new ≡ read_of chapter desk.old tree.old path.old «record».old id draw }
{
    let (_, finished) = requests::request(desk, tree, path, record, Kind::Read, id, draw)?;
    counts::found_by(chapter, finished, record)
}

// The reads of a range, ids rising, one draw each.
fn read_all(
    desk: &mut [u8],
    tree: &mut [u8],
    path: &mut [u8],
    record: &mut [u8],
    chapter: u8,
    first: u16,
    end: u16,
    draws: &[u16],
) -> Result<Row, Refusal>
    requires { (first ≤ end) × (length draws.now ≡ end - first) }
    ensures { ran result desk.new tree.new path.new «record».new ≡ row_from chapter (end - first) first draws.now no_counts desk.old tree.old path.old «record».old }
{
    let mut counts = Counts::NONE;
    for id in first..end {
        let draw = draws[(id - first) as usize];
        let cell = read_one(desk, tree, path, record, chapter, id, draw)?;
        counts = counts.plus(cell);
    }
    Ok(Row {
        counts,
        complete: counts.passed == end - first,
    })
}

// A chapter's row over the ids from `first` up to, not including, `end`, with one draw for each.
pub fn row(
    desk: &mut [u8],
    tree: &mut [u8],
    chapter: u8,
    first: u16,
    end: u16,
    draws: &[u16],
) -> Result<Row, Refusal>
    ensures { rowed result desk.new tree.new ≡ row_of desk.old tree.old chapter first end draws.now }
{
    row_checked(desk, tree, first, end, draws)?;
    let n = desk::sizes_of(desk).path_len();
    let mut path = [0u8; Sizes::MOST_PATH];
    let mut record = [0u8; Sizes::RECORD];
    read_all(
        desk,
        tree,
        &mut path[..n],
        &mut record,
        chapter,
        first,
        end,
        draws,
    )
}
