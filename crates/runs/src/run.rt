// The run of a script, line by line, over a store's buffers and a tree of its own. What a line does is `step_of` of specs/Run.antt. Assumes nothing.
ghost use Rattle.std.specs.Prelude.{◌≡◌, ◌≤◌, length};
ghost use Rattle.text.specs.Text.{bad_line};
ghost use Rattle.listing.specs.Listing.{Wrote, most_row};
ghost use Rattle.runs.specs.Shelf.{shelf};
ghost use Rattle.runs.specs.Run.{Became, step_of, is_over, end_text, Runs};

use crate::{head, request};
use setup::Store;

// Where a run stands: the first line is to come, or the second, or requests, of which `count` were read; or it is over.
#[derive(Clone, Copy, Drop)]
pub enum Run {
    First,
    Second(Store),
    Ready { store: Store, count: u64 },
    Over,
}

// Where the run stands after a line, and how many bytes of the listing were written.
#[derive(Clone, Copy, Drop)]
pub struct Step {
    pub run: Run,
    pub written: usize,
}

// A line that can't be read.
pub fn bad(out: &mut [u8]) -> Step
    requires { most_row ≤ length out.old }
    ensures { (result.run ≡ Run.Over) × Wrote out.old 0 bad_line out.new result.written × (result.written ≤ most_row) }
{
    let written = listing::bad_line(out);
    Step {
        run: Run::Over,
        written,
    }
}

// One line of the script, without its line feed.
pub fn take_line(
    run: Run,
    line: &[u8],
    desk: &mut [u8],
    tree: &mut [u8],
    path: &mut [u8],
    record: &mut [u8],
    leaves: &mut [u16],
    out: &mut [u8],
) -> Step
    requires { Runs run (shelf desk.old tree.old path.old «record».old leaves.old) out.old }
    ensures { Became (step_of run line.now (shelf desk.old tree.old path.old «record».old leaves.old)) out.old out.new result.run result.written (shelf desk.new tree.new path.new «record».new leaves.new) }
{
    match run {
        Run::First => head::first(line, out),
        Run::Second(store) => head::second(line, store, desk, leaves, out),
        Run::Ready { store, count } => request::ready(
            line, store, count, desk, tree, path, record, out,
        ),
        Run::Over => Step {
            run: Run::Over,
            written: 0,
        },
    }
}

// Whether no line counts any more.
pub fn is_over(run: Run) -> bool
    ensures { result ≡ is_over run }
{
    matches!(run, Run::Over)
}

// The script is over: a first or second line that never came counts as one that can't be read.
pub fn at_end(run: Run, out: &mut [u8]) -> usize
    requires { most_row ≤ length out.old }
    ensures { Wrote out.old 0 (end_text run) out.new result × (result ≤ most_row) }
{
    match run {
        Run::First | Run::Second(_) => listing::bad_line(out),
        Run::Ready { .. } | Run::Over => 0,
    }
}
