// The C interface of the verdict book. Assumes nothing.
ghost use Rattle.std.specs.Prelude.{◌≡◌};
ghost use Rattle.verdicts.specs.Verdict.{reading_of};
ghost use Rattle.book.specs.MatrixRow.{row_of};
ghost use Rattle.exports.specs.Codes.{Answered};
ghost use Rattle.exports.specs.BookCodes.{reading_code, said_or, made_of, made_code, row_code, counts_or, RowAnswers};

use sizes::Refusal;
use verdicts::Verdict;
use verdicts::counts::Row;

// The answer for a record that is bad or can't be made. The verdicts are 1 to 4: 0 is none of them, so that memory nobody wrote is never a verdict.
const NO_VERDICT: i32 = 0;

// The answers for a row. 0 is none of them, so that memory nobody wrote is never a row.
const COMPLETE: i32 = 1;

const INCOMPLETE: i32 = 2;

// Reads a record: answers its verdict, and `said` holds the chapter, the suite year and the name's length.
#[unsafe(no_mangle)]
pub extern "C" fn bawnaroy_verdict_read(record: &[u8], said: &mut [u16; 3]) -> i32
    ensures { Answered result said.new (reading_code (reading_of «record».now)) (said_or (reading_of «record».now) said.old) }
{
    match verdicts::read(record) {
        Some(entry) => {
            *said = [entry.chapter as u16, entry.year, entry.length as u16];
            u8::from(entry.verdict) as i32
        }
        None => NO_VERDICT,
    }
}

// Makes a record: answers the verdict. A number that is no verdict's makes none.
#[unsafe(no_mangle)]
pub extern "C" fn bawnaroy_verdict_make(
    record: &mut [u8],
    verdict: u8,
    chapter: u8,
    year: u16,
    name: &[u8],
) -> i32
    ensures { Answered result «record».new (made_code verdict (made_of «record».old verdict chapter year name.now).made) (made_of «record».old verdict chapter year name.now).buffer }
{
    let Ok(v) = Verdict::try_from(verdict) else {
        return NO_VERDICT;
    };
    if !verdicts::make(record, v, chapter, year, name) {
        return NO_VERDICT;
    }
    verdict as i32
}

fn row_number(row: Result<Row, Refusal>) -> i32
    ensures { result ≡ row_code row }
{
    match row {
        Ok(row) => { if row.complete { COMPLETE } else { INCOMPLETE } }
        Err(q) => crate::refused(q),
    }
}

// The counts that a row hands out. Beside a refusal it hands out none: what was lent stays.
fn counts_or(row: Result<Row, Refusal>, lent: [u16; 6]) -> [u16; 6]
    ensures { result ≡ counts_or row lent }
{
    match row {
        Ok(row) => {
            let c = row.counts;
            [c.passed, c.failed, c.skipped, c.errors, c.bad, c.not_run]
        }
        Err(_) => lent,
    }
}

// A chapter's row: complete or not, and `counts` holds how many passed, failed, were skipped, ended in an error, are bad and were not run.
#[unsafe(no_mangle)]
pub extern "C" fn bawnaroy_row(
    desk: &mut [u8],
    tree: &mut [u8],
    chapter: u8,
    first: u16,
    end: u16,
    draws: &[u16],
    counts: &mut [u16; 6],
) -> i32
    ensures { RowAnswers result desk.new tree.new counts.new counts.old (row_of desk.old tree.old chapter first end draws.now) }
{
    let row = book::row(desk, tree, chapter, first, end, draws);
    let lent = *counts;
    *counts = counts_or(row, lent);
    row_number(row)
}
