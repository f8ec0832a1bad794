// A sheet: a record's room for each number of a text of TAP, zeros where there is none. Assumes nothing.
#![tactic(auto)]

ghost use Rattle.std.specs.Prelude.{◌≡◌, length};
ghost use Rattle.sizes.specs.Sizes.{record_len};
ghost use Rattle.sheets.specs.Sheet.{is_record};

use sizes::Sizes;

// The length of a sheet for as many numbers as a store has ids.
pub const MOST_SHEET: usize = Sizes::MOST_IDS * Sizes::RECORD;

// Whether an entry holds a record: no verdict has the number 0.
pub fn is_record(entry: &[u8]) -> bool
    requires { length entry.now ≡ record_len }
    ensures { result ≡ is_record entry.now }
{
    entry[verdicts::VERDICT] != 0
}
