// The script's first two lines: the sizes, and the leaves that the desk is formatted with. Assumes nothing.
ghost use Rattle.std.specs.Prelude.{◌≡◌, [], ◌≤◌, length};
ghost use Rattle.setup.specs.Setup.{store_of, start_good};
ghost use Rattle.listing.specs.Listing.{Wrote, most_row};
ghost use Rattle.runs.specs.Shelf.{nothing, shelf};
ghost use Rattle.runs.specs.Run.{first_step, Second, Became, second_step};

use crate::run::{Run, Step};
use crate::{lengths, run};
use setup::Store;

// Bytes 0 to 31.
const KEY: [u8; 32] = [
    0, 1, 2, 3, 4, 5, 6, 7, 8, 9, 10, 11, 12, 13, 14, 15, 16, 17, 18, 19, 20, 21, 22, 23, 24, 25,
    26, 27, 28, 29, 30, 31,
];

// The first line.
pub fn first(line: &[u8], out: &mut [u8]) -> Step
    requires { most_row ≤ length out.old }
    ensures { (result.run ≡ (first_step (store_of line.now) nothing).run) × Wrote out.old 0 (first_step (store_of line.now) nothing).text out.new result.written × (result.written ≤ most_row) }
{
    match setup::store_line(line) {
        None => run::bad(out),
        Some(store) => Step {
            run: Run::Second(store),
            written: 0,
        },
    }
}

// The second line: the leaves are read, and the desk is formatted with them.
pub fn second(
    line: &[u8],
    store: Store,
    desk: &mut [u8],
    leaves: &mut [u16],
    out: &mut [u8],
) -> Step
    requires { Second store desk.old leaves.old out.old }
    ensures { Became (second_step (start_good store.ids line.now) store line.now (shelf desk.old [] [] [] leaves.old)) out.old out.new result.run result.written (shelf desk.new [] [] [] leaves.new) }
{
    let n = store.ids as usize;
    if !setup::start_line(line, &mut leaves[..n]) {
        return run::bad(out);
    }
    let m = lengths::desk_len(store);
    match formats::format(
        &mut desk[..m],
        store.height,
        store.slots,
        store.room,
        store.ids,
        &KEY,
        &leaves[..n],
    ) {
        Err(r) => {
            let written = listing::format_row(out, r);
            Step {
                run: Run::Over,
                written,
            }
        }
        Ok(()) => Step {
            run: Run::Ready { store, count: 0 },
            written: 0,
        },
    }
}
