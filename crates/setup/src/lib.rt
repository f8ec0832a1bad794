// The script's first two lines, `store ` and `start `, read. Each function goes by a line without its line feed. Assumes nothing.
#![tactic(auto)]

ghost use Rattle.std.specs.Prelude.{◌≡◌, length};
ghost use Rattle.setup.specs.Setup.{store_by, store_of, start_good, start_leaves};

use text::numbers;

// The shelf's own limit of L, and that of a byte.
pub const MOST_HEIGHT: u16 = 3;

pub const MOST_BYTE: u16 = 255;

// What the first line asks for: L, Z, S, N.
#[derive(Clone, Copy, Drop)]
pub struct Store {
    pub height: u8,
    pub slots: u8,
    pub room: u8,
    pub ids: u16,
}

// The first line, of its four numbers. A Z that is no byte goes on as 255, which format refuses as it would refuse Z itself.
fn store_by(height: u16, slots: u16, room: u16, ids: u16) -> Option<Store>
    ensures { result ≡ store_by height slots room ids }
{
    if MOST_HEIGHT < height || MOST_BYTE < room {
        return None;
    }
    Some(Store {
        height: height as u8,
        slots: slots.min(MOST_BYTE) as u8,
        room: room as u8,
        ids,
    })
}

// The first line.
pub fn store_line(line: &[u8]) -> Option<Store>
    ensures { result ≡ store_of line.now }
{
    let word: &[u8] = b"store ";
    if !line.starts_with(word) {
        return None;
    }
    let from = word.len() - 1;
    let mut four = [0u16; 4];
    let n = numbers::numbers(&line[from..], &mut four)?;
    if from + n != line.len() {
        return None;
    }
    store_by(four[0], four[1], four[2], four[3])
}

// The second line: whether it can be read. Its leaves are laid into `leaves`, one for each place.
pub fn start_line(line: &[u8], leaves: &mut [u16]) -> bool
    ensures { (result ≡ start_good (length leaves.old) line.now) × (leaves.new ≡ start_leaves leaves.old line.now) }
{
    let word: &[u8] = b"start ";
    if !line.starts_with(word) {
        return false;
    }
    let from = word.len() - 1;
    let Some(n) = numbers::numbers(&line[from..], leaves) else {
        return false;
    };
    if leaves.is_empty() {
        return line.len() == word.len();
    }
    line.len() == from + n
}
