// The lines that are printed. Assumes nothing.
ghost use Rattle.std.specs.Prelude.{◌≡◌, ◌++◌, ◌+◌, ◌*◌, ◌≤◌, ◌<◌, length};
ghost use Rattle.listing.specs.Writer.{Adds, HasRoom};
ghost use Rattle.verdicts.specs.Verdict.{most_name};
ghost use Rattle.lines.specs.Words.{not_ok_word, todo_text};
ghost use Rattle.printing.specs.Printed.{version_text, plan_text, kind_text, directive_text, verdict_text, is_printable, head_room, line_room, room_of};

use listing::writer::Writer;
use verdicts::Verdict;

// The most bytes of version and plan, and of a line for a verdict.
pub const HEAD_ROOM: usize = 23;

pub const LINE_ROOM: usize = 82;

// The room that a text of `n` numbers has.
pub fn room(n: usize) -> usize
    requires { n < 65536 }
    ensures { result ≡ room_of n }
{
    HEAD_ROOM + n * LINE_ROOM
}

// Whether a line can say a name: one with a line feed in it would be two lines.
pub fn is_printable(name: &[u8]) -> bool
    ensures { result ≡ is_printable name.now }
{
    !name.contains(&window::LINE_FEED)
}

// Version and plan. A number is put where twenty digits have room, so that the room of a line must follow.
pub fn put_head(w: &mut Writer, n: usize)
    requires { (n < 10000) × HasRoom w.old (head_room + line_room) }
    ensures { Adds w.old (version_text ++ plan_text n) w.new × (w.new.at ≤ w.old.at + head_room) }
{
    w.put(b"TAP version 13\n1..");
    w.decimal(n as u64);
    w.put(b"\n");
}

fn put_kind(w: &mut Writer, verdict: Verdict)
    requires { HasRoom w.old (length not_ok_word) }
    ensures { Adds w.old (kind_text verdict) w.new × (w.new.at ≤ w.old.at + length not_ok_word) }
{
    match verdict {
        Verdict::Pass | Verdict::Skipped => w.put(b"ok "),
        Verdict::Fail | Verdict::Error => w.put(b"not ok "),
    }
}

fn put_directive(w: &mut Writer, verdict: Verdict)
    requires { HasRoom w.old (length todo_text) }
    ensures { Adds w.old (directive_text verdict) w.new × (w.new.at ≤ w.old.at + length todo_text) }
{
    match verdict {
        Verdict::Pass | Verdict::Fail => {}
        Verdict::Skipped => w.put(b" # SKIP"),
        Verdict::Error => w.put(b" # TODO"),
    }
}

// The line that says a verdict.
pub fn put_verdict(w: &mut Writer, number: usize, verdict: Verdict, name: &[u8])
    requires { (number < 10000) × (length name.now ≤ most_name) × HasRoom w.old line_room }
    ensures { Adds w.old (verdict_text number verdict name.now) w.new × (w.new.at ≤ w.old.at + line_room) }
{
    put_kind(w, verdict);
    w.decimal(number as u64);
    w.put(b" - ");
    w.put(name);
    put_directive(w, verdict);
    w.put(b"\n");
}
