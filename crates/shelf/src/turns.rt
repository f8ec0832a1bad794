// The script read in pieces and its listing written, turn by turn: what bytes there are goes to `run`, and what it lists goes out.
// A run ends where the script does, at a line that can't be read, at a refused format, or where the output can't be written.
ghost use Rattle.std.specs.Prelude.{◌+◌, ◌-◌, ◌≤◌, ◌<◌, length, Option};
ghost use Rattle.words.specs.Bytes.{part};
ghost use Rattle.setup.specs.Setup.{most_line};
ghost use Rattle.listing.specs.Listing.{most_row};
ghost use Rattle.runs.specs.Shelf.{shelf, Lent};
ghost use Rattle.runs.specs.Run.{Sound, count_of};
ghost use Rattle.shelf.specs.Turns.{Inside, Placed, Turned, Listed};

use runs::run;
use runs::run::Run;
use std::io::Read;
use window::Next;

// Where the program stands: the unread text is in the window from `from` up to `to`, and `ended` says whether that is all that is left of the script.
#[derive(Clone, Copy, Drop)]
pub struct Place {
    pub from: usize,
    pub to: usize,
    pub ended: bool,
    pub run: Run,
}

// Writes a part of the listing, whole. Where that can't be done no line of the listing can say so, and the user is told on standard error.
pub fn write_out(rt: &(impl Print + Eprint), text: &[u8]) -> bool {
    match rt.write_all(text) {
        Ok(()) => true,
        Err(_) => {
            let _ = rt.eprintln("shelf: the listing can't be written");
            false
        }
    }
}

// Reads on behind the unread text, which goes to the window's front, and answers where it then ends. A script that can't be read on ends there.
fn fill(rt: &(impl Input + Eprint), window: &mut [u8], from: usize, to: usize) -> usize
    requires { (from ≤ to) × (to ≤ length window.old) }
    ensures { result ≤ length window.old }
{
    window::shift(window, from, to);
    let n = to - from;
    match rt.reader().read(&mut window[n..]) {
        Ok(got) => n + got,
        Err(_) => {
            let _ = rt.eprintln("shelf: the script can't be read on");
            n
        }
    }
}

// More of the script is wanted: where the program then stands, or none if it stops. A window that is full holds the front of a line that is longer than any that can be read.
fn more(
    rt: &(impl Input + Print + Eprint),
    at: Place,
    window: &mut [u8],
    out: &mut [u8],
) -> Option<Place>
    requires { Inside at window.old × Sound at.run × (most_row ≤ length out.old) }
    ensures { Turned result (count_of at.run) (length window.old) × Listed result at.run (part window.old at.from (at.to - at.from)) out.old out.new }
{
    let n = at.to - at.from;
    if n == window.len() {
        let step = run::bad(out);
        let n = step.written;
        write_out(rt, &out[..n]);
        return None;
    }
    let end = fill(rt, window, at.from, at.to);
    let run = at.run;
    Some(Place {
        from: 0,
        to: end,
        ended: end == n,
        run,
    })
}

// The script has ended.
fn over(rt: &(impl Print + Eprint), run: Run, out: &mut [u8])
    requires { most_row ≤ length out.old }
{
    let n = run::at_end(run, out);
    write_out(rt, &out[..n]);
}

// After a line the text is read on from `next`, unless the run is over.
fn go_on(run: Run, next: usize, at: Place) -> Option<Place>
    requires { (next ≤ at.to) × Sound run × (count_of run ≤ count_of at.run + 1) }
    ensures { Turned result (count_of at.run) at.to }
{
    if run::is_over(run) {
        return None;
    }
    Some(Place {
        from: next,
        to: at.to,
        ended: at.ended,
        run,
    })
}

// A line of the script, which stands in the window up to `end`.
fn line(
    rt: &(impl Print + Eprint),
    at: Place,
    end: usize,
    next: usize,
    window: &[u8],
    desk: &mut [u8],
    tree: &mut [u8],
    path: &mut [u8],
    record: &mut [u8],
    leaves: &mut [u16],
    out: &mut [u8],
) -> Option<Place>
    requires { (at.from ≤ end) × (end ≤ next) × (next ≤ at.to) × Placed at window.now (shelf desk.old tree.old path.old «record».old leaves.old) out.old }
    ensures { Turned result (count_of at.run) (length window.now) }
{
    let from = at.from;
    let run = at.run;
    let step = run::take_line(
        run,
        &window[from..end],
        desk,
        tree,
        path,
        record,
        leaves,
        out,
    );
    let n = step.written;
    if !write_out(rt, &out[..n]) {
        return None;
    }
    let after = step.run;
    go_on(after, next, at)
}

// One line, or one read.
fn take_turn(
    rt: &(impl Input + Print + Eprint),
    at: Place,
    window: &mut [u8],
    desk: &mut [u8],
    tree: &mut [u8],
    path: &mut [u8],
    record: &mut [u8],
    leaves: &mut [u16],
    out: &mut [u8],
) -> Option<Place>
    requires { Placed at window.old (shelf desk.old tree.old path.old «record».old leaves.old) out.old }
    ensures { Turned result (count_of at.run) (length window.old) }
{
    match window::next_line(window, at.from, at.to, at.ended) {
        Next::Over => {
            let run = at.run;
            over(rt, run, out);
            None
        }
        Next::More => more(rt, at, window, out),
        Next::Line { end, next } => line(
            rt, at, end, next, window, desk, tree, path, record, leaves, out,
        ),
    }
}

// A proved loop has to end, and nothing says that a script does. So the loop counts its turns, up to a number that no run reaches.
pub fn run_script(
    rt: &(impl Input + Print + Eprint),
    window: &mut [u8],
    desk: &mut [u8],
    tree: &mut [u8],
    path: &mut [u8],
    record: &mut [u8],
    leaves: &mut [u16],
    out: &mut [u8],
)
    requires { Lent (shelf desk.old tree.old path.old «record».old leaves.old) out.old × (most_line < length window.old) }
{
    let mut at = Place {
        from: 0,
        to: 0,
        ended: false,
        run: Run::First,
    };
    for _turn in 0..u64::MAX {
        let Some(after) = take_turn(rt, at, window, desk, tree, path, record, leaves, out) else {
            return;
        };
        at = after;
    }
}
