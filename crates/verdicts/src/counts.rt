// The columns of a matrix row, and counts of them. Assumes nothing.
ghost use Rattle.std.specs.Prelude.{◌≡◌, ◌<◌};
ghost use Rattle.verdicts.specs.Cells.{verdict_cell, record_cell, found_of, plus, sum};

use crate::Verdict;
use sizes::Refusal;
use store::Finished;

// Where a case stands in a row: by its verdict, or as a record that is bad, or as never run.
#[derive(Clone, Copy, Debug, PartialEq, Eq)]
pub enum Cell {
    Passed,
    Failed,
    Skipped,
    Errors,
    Bad,
    NotRun,
}

#[derive(Clone, Copy, Debug, PartialEq, Eq)]
pub struct Counts {
    pub passed: u16,
    pub failed: u16,
    pub skipped: u16,
    pub errors: u16,
    pub bad: u16,
    pub not_run: u16,
}

// What a row that is not refused answers, complete exactly if every case has passed.
#[derive(Clone, Copy, Debug, PartialEq, Eq)]
pub struct Row {
    pub counts: Counts,
    pub complete: bool,
}

fn verdict_cell(v: Verdict) -> Cell
    ensures { result ≡ verdict_cell v }
{
    match v {
        Verdict::Pass => Cell::Passed,
        Verdict::Fail => Cell::Failed,
        Verdict::Skipped => Cell::Skipped,
        Verdict::Error => Cell::Errors,
    }
}

// A record's column in a chapter's row.
pub fn record_cell(chapter: u8, record: &[u8]) -> Cell
    ensures { result ≡ record_cell chapter «record».now }
{
    let Some(entry) = crate::read(record) else {
        return Cell::Bad;
    };
    if entry.chapter == chapter {
        verdict_cell(entry.verdict)
    } else {
        Cell::Bad // of another chapter
    }
}

// A read's column, by its answer and the record that it left. No read is answered by Done; were one, it would count as bad and paint nothing over.
pub fn found_by(
    chapter: u8,
    finished: Result<Finished, Refusal>,
    record: &[u8],
) -> Result<Cell, Refusal>
    ensures { result ≡ found_of chapter finished «record».now }
{
    Ok(match finished? {
        Finished::Record => record_cell(chapter, record),
        Finished::Never => Cell::NotRun,
        Finished::Done => Cell::Bad,
    })
}

impl Counts {
    pub const NONE: Counts = Counts {
        passed: 0,
        failed: 0,
        skipped: 0,
        errors: 0,
        bad: 0,
        not_run: 0,
    };

    // One more in a column.
    pub fn plus(self, cell: Cell) -> Self
        requires { sum self < 65535 }
        ensures { result ≡ plus cell self }
    {
        let mut c = self;
        match cell {
            Cell::Passed => c.passed += 1,
            Cell::Failed => c.failed += 1,
            Cell::Skipped => c.skipped += 1,
            Cell::Errors => c.errors += 1,
            Cell::Bad => c.bad += 1,
            Cell::NotRun => c.not_run += 1,
        }
        c
    }
}
