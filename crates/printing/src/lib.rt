// The text that says a sheet: a line for each entry that is a verdict of the chapter. The lines are in `print`. Assumes nothing.
#![tactic(auto)]

pub mod print;

ghost use Rattle.std.specs.Prelude.{◌≡◌, ◌+◌, ◌*◌, ◌≤◌, ◌<◌, length};
ghost use Rattle.sizes.specs.Sizes.{record_len};
ghost use Rattle.listing.specs.Listing.{Wrote};
ghost use Rattle.listing.specs.Writer.{Adds, HasRoom};
ghost use Rattle.printing.specs.Printed.{line_room, room_of};
ghost use Rattle.printing.specs.Printing.{entry_text, entries_text, text_of};

use listing::writer::Writer;
use sizes::Sizes;

// The line of one entry, if it gets one.
fn put_entry(w: &mut Writer, chapter: u8, number: usize, entry: &[u8])
    requires { (number < 10000) × HasRoom w.old line_room }
    ensures { Adds w.old (entry_text chapter number entry.now) w.new × (w.new.at ≤ w.old.at + line_room) }
{
    let Some(says) = verdicts::read(entry) else {
        return;
    };
    let to = verdicts::NAME + says.length;
    let name = &entry[verdicts::NAME..to];
    let printed = (says.chapter == chapter) & print::is_printable(name);
    if printed {
        print::put_verdict(w, number, says.verdict, name);
    }
}

fn put_entries(w: &mut Writer, chapter: u8, n: usize, sheet: &[u8])
    requires { (n < 10000) × (length sheet.now ≡ n * record_len) × HasRoom w.old (n * line_room) }
    ensures { Adds w.old (entries_text chapter n 0 sheet.now) w.new × (w.new.at ≤ w.old.at + n * line_room) }
{
    for i in 0..n {
        let start = i * Sizes::RECORD;
        let entry = &sheet[start..start + Sizes::RECORD];
        put_entry(w, chapter, i + 1, entry);
    }
}

// The text of a sheet of `n` entries; answers its length.
pub fn put(out: &mut [u8], chapter: u8, n: usize, sheet: &[u8]) -> usize
    requires { (1 ≤ n) × (n < 10000) × (length sheet.now ≡ n * record_len) × (length out.old ≡ room_of n) }
    ensures { Wrote out.old 0 (text_of chapter n sheet.now) out.new result × (result ≤ room_of n) }
{
    let mut w = Writer::new(out);
    print::put_head(&mut w, n);
    put_entries(&mut w, chapter, n, sheet);
    w.len()
}
