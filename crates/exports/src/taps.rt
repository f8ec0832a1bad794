// The C interface of TAP. Assumes nothing.
ghost use Rattle.std.specs.Prelude.{◌≡◌};
ghost use Rattle.printing.specs.Printed.{room_of};
ghost use Rattle.tap.specs.Tap.{read_of, write_of};
ghost use Rattle.exports.specs.TapCodes.{trouble_code, taken_code, line_or, ReadAnswers, WriteAnswers};

use taking::Trouble;
use tap::NotRead;

// The answer for a text that was read.
const READ: i32 = 0;

// A text's refusal, as the store's: its number, negative.
fn trouble_number(t: Trouble) -> i32
    ensures { result ≡ trouble_code t }
{
    -(u8::from(t) as i32)
}

fn taken_number(taken: Result<(), NotRead>) -> i32
    ensures { result ≡ taken_code taken }
{
    match taken {
        Ok(()) => READ,
        Err(NotRead::Refused(q)) => crate::refused(q),
        Err(NotRead::Bad(bad)) => trouble_number(bad.trouble),
    }
}

// The line's number is handed out beside a text's refusal alone: otherwise what was lent stays.
fn line_or(taken: Result<(), NotRead>, lent: [u64; 1]) -> [u64; 1]
    ensures { result ≡ line_or taken lent }
{
    match taken {
        Ok(()) => lent,
        Err(NotRead::Refused(_)) => lent,
        Err(NotRead::Bad(bad)) => [bad.line as u64],
    }
}

// The room of the buffer that the text of a range of `n` ids is written into.
#[unsafe(no_mangle)]
pub extern "C" fn bawnaroy_tap_room(n: u16) -> usize
    ensures { result ≡ room_of n }
{
    tap::room(n)
}

// Reads a text into the store.
#[unsafe(no_mangle)]
pub extern "C" fn bawnaroy_tap_read(
    desk: &mut [u8],
    tree: &mut [u8],
    chapter: u8,
    year: u16,
    first: u16,
    end: u16,
    draws: &[u16],
    text: &[u8],
    line: &mut [u64; 1],
) -> i32
    ensures { ReadAnswers result desk.new tree.new line.new line.old (read_of desk.old tree.old chapter year first end draws.now text.now) }
{
    let taken = tap::read(desk, tree, chapter, year, first, end, draws, text);
    let lent = *line;
    *line = line_or(taken, lent);
    taken_number(taken)
}

// Writes the text that says a range to the front of `out`.
#[unsafe(no_mangle)]
pub extern "C" fn bawnaroy_tap_write(
    desk: &mut [u8],
    tree: &mut [u8],
    chapter: u8,
    first: u16,
    end: u16,
    draws: &[u16],
    out: &mut [u8],
) -> i32
    ensures { WriteAnswers result desk.new tree.new out.new (write_of desk.old tree.old chapter first end draws.now out.old) }
{
    match tap::write(desk, tree, chapter, first, end, draws, out) {
        Ok(n) => n as i32,
        Err(q) => crate::refused(q),
    }
}
