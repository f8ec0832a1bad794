// A line of requests: the request is one call, and its answer is listed. Assumes nothing.
ghost use Rattle.std.specs.Prelude.{◌≡◌, [], ◌≤◌, length};
ghost use Rattle.sizes.specs.Sizes.{record_len};
ghost use Rattle.script.specs.Lines.{request_of};
ghost use Rattle.listing.specs.Listing.{Wrote, most_row};
ghost use Rattle.runs.specs.Shelf.{shelf};
ghost use Rattle.runs.specs.Run.{Holds, Ready, Answers, Became, request_on, request_step, row_for};

use crate::run::{Run, Step};
use crate::{lengths, run};
use desk::Kind;
use requests::Answered;
use script::Request;
use setup::Store;

// The line of request `n`. What stands in `record` is listed only where a record was answered.
fn put_row(out: &mut [u8], n: u64, kind: Kind, id: u16, answered: Answered, record: &[u8]) -> usize
    requires { (most_row ≤ length out.old) × (length «record».now ≡ record_len) }
    ensures { Wrote out.old 0 (row_for answered n kind id «record».now) out.new result × (result ≤ most_row) }
{
    match answered {
        Err(r) => listing::row(out, n, kind, id, None, Err(r), record),
        Ok((leaf, finished)) => listing::row(out, n, kind, id, Some(leaf), finished, record),
    }
}

// The request itself, over as much of the buffers as the store has.
fn answer(
    store: Store,
    kind: Kind,
    id: u16,
    leaf: u16,
    desk: &mut [u8],
    tree: &mut [u8],
    path: &mut [u8],
    record: &mut [u8],
) -> Answered
    requires { Holds store desk.old tree.old path.old }
    ensures { Answers (request_on store kind id leaf «record».old (shelf desk.old tree.old path.old «record».old [])) store (shelf desk.old tree.old path.old «record».old []) result (shelf desk.new tree.new path.new «record».new []) }
{
    let d = lengths::desk_len(store);
    let t = lengths::tree_len(store);
    let p = lengths::path_len(store);
    requests::request(
        &mut desk[..d],
        &mut tree[..t],
        &mut path[..p],
        record,
        kind,
        id,
        leaf,
    )
}

// A line of requests, of which `count` were read before.
pub fn ready(
    line: &[u8],
    store: Store,
    count: u64,
    desk: &mut [u8],
    tree: &mut [u8],
    path: &mut [u8],
    record: &mut [u8],
    out: &mut [u8],
) -> Step
    requires { Ready store count desk.old tree.old path.old «record».old out.old }
    ensures { Became (request_step (request_of line.now) store count line.now (shelf desk.old tree.old path.old «record».old [])) out.old out.new result.run result.written (shelf desk.new tree.new path.new «record».new []) }
{
    let Some(request) = script::request_line(line) else {
        return run::bad(out);
    };
    let Request {
        kind,
        id,
        leaf,
        text,
    } = request;
    script::lay_text(record, &line[text..]);
    let answered = answer(store, kind, id, leaf, desk, tree, path, record);
    let n = count + 1;
    let written = put_row(out, n, kind, id, answered, record);
    Step {
        run: Run::Ready { store, count: n },
        written,
    }
}
