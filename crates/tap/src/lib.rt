// TAP in and out: a text of the Test Anything Protocol read into the store for a range of ids of the verdict book, and the text that says the range. Assumes nothing.
#![tactic(auto)]

ghost use Rattle.std.specs.Prelude.{◌≡◌, ◌-◌, Ok};
ghost use Rattle.tap.specs.declared.NotRead.TheVariants as not_read;
ghost use Rattle.book.specs.MatrixRow.{row_checked};
ghost use Rattle.printing.specs.Printed.{room_of};
ghost use Rattle.sheets.specs.Sheet.{empty_sheet};
ghost use Rattle.taking.specs.Taking.{take_of};
ghost use Rattle.passing.specs.Passing.{pass_of};
ghost use Rattle.tap.specs.Tap.{read_in, read_taken, read_of, wrote, write_checked, write_passed, write_of};

use printing::print;
use sizes::{Refusal, Sizes};
use taking::BadText;

// Why a text was not read into the store: the store's refusals, or the text's with the number of its line.
#[derive(Clone, Copy, Debug, PartialEq, Eq)]
pub enum NotRead {
    Refused(Refusal),
    Bad(BadText),
}

impl From<BadText> for NotRead {
    ghost from_gives = { λ bad e. e ≡ not_read.Bad bad };

    fn from(bad: BadText) -> NotRead {
        NotRead::Bad(bad)
    }
}

impl From<Refusal> for NotRead {
    ghost from_gives = { λ q e. e ≡ not_read.Refused q };

    fn from(q: Refusal) -> NotRead {
        NotRead::Refused(q)
    }
}

// The room that the text of a range of `n` ids is written into.
pub fn room(n: u16) -> usize
    ensures { result ≡ room_of n }
{
    print::room(n as usize)
}

// The text is read whole into the sheet; then the sheet goes through the store.
fn read_checked(
    desk: &mut [u8],
    tree: &mut [u8],
    sheet: &mut [u8],
    chapter: u8,
    year: u16,
    first: u16,
    end: u16,
    draws: &[u16],
    text: &[u8],
) -> Result<(), NotRead>
    requires { (row_checked desk.old tree.old first end draws.now ≡ Ok tt) × (sheet.old ≡ empty_sheet (end - first)) }
    ensures { read_in result desk.new tree.new ≡ read_taken (take_of chapter year (end - first) text.now) desk.old tree.old first draws.now }
{
    taking::take(sheet, chapter, year, (end - first) as usize, text)?;
    passing::pass_all(desk, tree, sheet, first, end, draws)?;
    Ok(())
}

// Reads a text for the ids from `first` up to, not including, `end`, of a chapter and a suite year, with one draw for each id.
pub fn read(
    desk: &mut [u8],
    tree: &mut [u8],
    chapter: u8,
    year: u16,
    first: u16,
    end: u16,
    draws: &[u16],
    text: &[u8],
) -> Result<(), NotRead>
    ensures { read_in result desk.new tree.new ≡ read_of desk.old tree.old chapter year first end draws.now text.now }
{
    book::row_checked(desk, tree, first, end, draws)?;
    let n = (end - first) as usize * Sizes::RECORD;
    let mut sheet = [0u8; sheets::MOST_SHEET];
    read_checked(
        desk,
        tree,
        &mut sheet[..n],
        chapter,
        year,
        first,
        end,
        draws,
        text,
    )
}

// The refusals of writing before any ask, in order.
fn write_checked(
    desk: &[u8],
    tree: &[u8],
    first: u16,
    end: u16,
    draws: &[u16],
    out: &[u8],
) -> Result<(), Refusal>
    ensures { result ≡ write_checked desk.now tree.now first end draws.now out.now }
{
    book::row_checked(desk, tree, first, end, draws)?;
    if out.len() != room(end - first) {
        return Err(Refusal::BadLength);
    }
    Ok(())
}

// The ids are read into the sheet, and the buffer is written once all have been.
fn write_range(
    desk: &mut [u8],
    tree: &mut [u8],
    sheet: &mut [u8],
    chapter: u8,
    first: u16,
    end: u16,
    draws: &[u16],
    out: &mut [u8],
) -> Result<usize, Refusal>
    requires { (write_checked desk.old tree.old first end draws.now out.old ≡ Ok tt) × (sheet.old ≡ empty_sheet (end - first)) }
    ensures { wrote result desk.new tree.new out.new ≡ write_passed chapter (end - first) (pass_of desk.old tree.old first draws.now (empty_sheet (end - first))) out.old }
{
    passing::pass_all(desk, tree, sheet, first, end, draws)?;
    Ok(printing::put(out, chapter, (end - first) as usize, sheet))
}

// Writes the text that says a chapter's verdicts of the ids from `first` up to, not including, `end` into a buffer of the room for them;
// the answer is the text's length.
pub fn write(
    desk: &mut [u8],
    tree: &mut [u8],
    chapter: u8,
    first: u16,
    end: u16,
    draws: &[u16],
    out: &mut [u8],
) -> Result<usize, Refusal>
    ensures { wrote result desk.new tree.new out.new ≡ write_of desk.old tree.old chapter first end draws.now out.old }
{
    write_checked(desk, tree, first, end, draws, out)?;
    let n = (end - first) as usize * Sizes::RECORD;
    let mut sheet = [0u8; sheets::MOST_SHEET];
    write_range(desk, tree, &mut sheet[..n], chapter, first, end, draws, out)
}
