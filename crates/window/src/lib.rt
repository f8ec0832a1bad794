// A script that is read in pieces: the unread text stands in a window from `from` up to `to`. Assumes nothing.
#![tactic(auto)]

ghost use Rattle.std.specs.Prelude.{◌≡◌, ◌-◌, ◌≤◌, length};
ghost use Rattle.words.specs.Bytes.{part, splice};
ghost use Rattle.window.specs.Pieces.{next_of, Ahead};

use text::bytes;

// A line ends at this byte.
pub const LINE_FEED: u8 = 10;

// What a window has to read: a line up to `end`, after which the next one begins; or more of the script is wanted; or nothing is left.
#[derive(Clone, Copy, Drop)]
pub enum Next {
    Line { end: usize, next: usize },
    More,
    Over,
}

// The next line, where `ended` says whether the window has all that is left of the script.
pub fn next_line(window: &[u8], from: usize, to: usize, ended: bool) -> Next
    requires { (from ≤ to) × (to ≤ length window.now) }
    ensures { (result ≡ next_of from (part window.now from (to - from)) ended) × Ahead from to result }
{
    let end = from + bytes::before(&window[from..to], LINE_FEED);
    if end < to {
        return Next::Line { end, next: end + 1 };
    }
    if !ended {
        return Next::More;
    }
    if from == to {
        return Next::Over;
    }
    Next::Line { end: to, next: to }
}

// The unread text goes to the window's front, so that there is room behind it.
pub fn shift(window: &mut [u8], from: usize, to: usize)
    requires { (from ≤ to) × (to ≤ length window.old) }
    ensures { window.new ≡ splice window.old 0 (part window.old from (to - from)) }
{
    window.copy_within(from..to, 0);
}
