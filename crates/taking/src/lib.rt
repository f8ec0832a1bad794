// A text of TAP, read line by line into a sheet. Assumes nothing.
#![tactic(auto)]

ghost use Rattle.std.specs.Prelude.{◌≡◌, true, ◌+◌, ◌*◌, ◌≤◌, ◌<◌, length};
ghost use Rattle.sizes.specs.Sizes.{record_len};
ghost use Rattle.verdicts.specs.Verdict.{can_be_read};
ghost use Rattle.lines.specs.Line.{description_in};
ghost use Rattle.taking.specs.Taking.{trouble_number, is_bad_number, stepped, take_test, take_plan, take_first, take_line, at_end, took, take_into};

use lines::{Line, Test};
use sizes::Sizes;
use text::bytes;

// The refusals of a text.
#[derive(Clone, Copy, Debug, PartialEq, Eq)]
pub enum Trouble {
    Malformed,
    BadPlan,
}

// They are numbered on from the store's.
impl From<Trouble> for u8 {
    ghost from_gives = { λ trouble r. r ≡ trouble_number trouble };

    fn from(trouble: Trouble) -> u8 {
        match trouble {
            Trouble::Malformed => 12,
            Trouble::BadPlan => 13,
        }
    }
}

// What is wrong with a text, and in which line: its lines count from 1.
#[derive(Clone, Copy, Debug, PartialEq, Eq)]
pub struct BadText {
    pub trouble: Trouble,
    pub line: usize,
}

// Whether a number is none of 1 to `n`, or is taken.
fn is_bad_number(sheet: &[u8], n: usize, k: u64) -> bool
    requires { (length sheet.now ≡ n * record_len) × (n < 65536) }
    ensures { result ≡ is_bad_number n sheet.now k }
{
    let good = (1 <= k) & (k <= n as u64);
    if !good {
        return true;
    }
    let at = (k as usize - 1) * Sizes::RECORD;
    sheets::is_record(&sheet[at..at + Sizes::RECORD])
}

// A test line's record goes to its number's place. Answers whether the plan has come then, as each line does.
fn take_test(
    sheet: &mut [u8],
    chapter: u8,
    year: u16,
    n: usize,
    planned: bool,
    line: &[u8],
    test: Test,
) -> Result<bool, Trouble>
    requires { (length sheet.old ≡ n * record_len) × (n < 65536) × (test.from + test.length ≤ length line.now) × (can_be_read chapter (description_in line.now test) ≡ true) }
    ensures { stepped result sheet.new ≡ take_test chapter year n planned sheet.old line.now test }
{
    if is_bad_number(sheet, n, test.number) {
        return Err(Trouble::BadPlan);
    }
    let at = (test.number as usize - 1) * Sizes::RECORD;
    let from = test.from;
    let to = from + test.length;
    let verdict = test.verdict;
    verdicts::make(
        &mut sheet[at..at + Sizes::RECORD],
        verdict,
        chapter,
        year,
        &line[from..to],
    );
    Ok(planned)
}

fn take_plan(n: usize, planned: bool, k: u64) -> Result<bool, Trouble>
    ensures { result ≡ take_plan n planned k }
{
    if planned {
        return Err(Trouble::Malformed);
    }
    if k != n as u64 {
        return Err(Trouble::BadPlan);
    }
    Ok(true)
}

// The first line is the version.
fn take_first(line: Line) -> Result<bool, Trouble>
    ensures { result ≡ take_first line }
{
    match line {
        Line::Version => Ok(false),
        _ => Err(Trouble::Malformed),
    }
}

// One line, which `before` lines came before.
fn take_line(
    sheet: &mut [u8],
    chapter: u8,
    year: u16,
    n: usize,
    before: usize,
    planned: bool,
    line: &[u8],
) -> Result<bool, Trouble>
    requires { (length sheet.old ≡ n * record_len) × (n < 65536) }
    ensures { stepped result sheet.new ≡ take_line chapter year n before planned sheet.old line.now }
{
    let said = lines::read(chapter, line);
    if before == 0 {
        return take_first(said);
    }
    match said {
        Line::Version => Err(Trouble::Malformed),
        Line::Plan(k) => take_plan(n, planned, k),
        Line::Test(test) => take_test(sheet, chapter, year, n, planned, line, test),
        Line::Comment => Ok(planned),
        Line::Malformed => Err(Trouble::Malformed),
    }
}

// A plan that is missing, or a version, is malformed one line past the end.
fn at_end(before: usize, planned: bool) -> Result<(), BadText>
    requires { before + 1 < 18446744073709551616 }
    ensures { result ≡ at_end before planned }
{
    if planned {
        return Ok(());
    }
    Err(BadText {
        trouble: Trouble::Malformed,
        line: before + 1,
    })
}

// A whole text, for `n` numbers.
pub fn take(sheet: &mut [u8], chapter: u8, year: u16, n: usize, text: &[u8]) -> Result<(), BadText>
    requires { (length sheet.old ≡ n * record_len) × (n < 65536) }
    ensures { took result sheet.new ≡ take_into chapter year n sheet.old text.now }
{
    let mut rest = text;
    let mut before = 0;
    let mut planned = false;
    // Not a `for` over `split_inclusive`: its contract does not say which pieces it gives.
    while !rest.is_empty() {
        let end = bytes::before(rest, window::LINE_FEED);
        let line = before + 1;
        planned = take_line(sheet, chapter, year, n, before, planned, &rest[..end]).map_err(
            |trouble| BadText { trouble, line },
        )?;
        before = line;
        // A last line may lack its line feed.
        rest = &rest[(end + 1).min(rest.len())..];
    }
    at_end(before, planned)
}
