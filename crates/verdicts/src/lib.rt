// A verdict in a record: verdict, chapter, suite year, and a name that zeros follow. Assumes nothing.
#![tactic(auto)]

ghost use Rattle.std.specs.Prelude.{◌≡◌, ◌≤◌, length};
ghost use Rattle.sizes.specs.Sizes.{record_len};
ghost use Rattle.verdicts.specs.Verdict.{most_name, Names, verdict_number, is_padded, reading_of, can_be_read, head_of, record_of, make_of, making};

use sizes::Sizes;
use text::bytes;

pub mod counts;

// Where the parts of a record stand.
pub const VERDICT: usize = 0;

pub const CHAPTER: usize = 1;

pub const YEAR: usize = 2;

pub const NAME: usize = 4;

pub const MOST_NAME: usize = Sizes::RECORD - NAME;

pub const MOST_CHAPTER: u8 = 31;

// The numbers of the verdicts are 1 to 4, in this order. 0 is none of them, so that zeros are never a pass.
#[derive(Clone, Copy, Debug, PartialEq, Eq)]
pub enum Verdict {
    Pass,
    Fail,
    Skipped,
    Error,
}

// A number that is no verdict's.
#[derive(Clone, Copy, Debug, PartialEq, Eq)]
pub struct NoVerdict(pub u8);

impl From<Verdict> for u8 {
    ghost from_gives = { λ v n. n ≡ verdict_number v };

    fn from(v: Verdict) -> u8 {
        match v {
            Verdict::Pass => 1,
            Verdict::Fail => 2,
            Verdict::Skipped => 3,
            Verdict::Error => 4,
        }
    }
}

impl TryFrom<u8> for Verdict {
    type Error = NoVerdict;

    ghost try_from_gives = { Names };

    fn try_from(x: u8) -> Result<Self, NoVerdict> {
        match x {
            1 => Ok(Verdict::Pass),
            2 => Ok(Verdict::Fail),
            3 => Ok(Verdict::Skipped),
            4 => Ok(Verdict::Error),
            _ => Err(NoVerdict(x)),
        }
    }
}

// What a record says. The name has `length` bytes and stands in the record from NAME on.
#[derive(Clone, Copy, Debug, PartialEq, Eq)]
pub struct Entry {
    pub verdict: Verdict,
    pub chapter: u8,
    pub year: u16,
    pub length: usize,
}

// Whether zeros follow a name of `len` bytes.
fn is_padded(name: &[u8], len: usize) -> bool
    requires { len ≤ length name.now }
    ensures { result ≡ is_padded name.now len }
{
    words::is_zero(&name[len..])
}

// What a record of the right length says, if it is good.
fn read_whole(record: &[u8]) -> Option<Entry>
    requires { length «record».now ≡ record_len }
    ensures { result ≡ reading_of «record».now }
{
    let Ok(verdict) = Verdict::try_from(record[VERDICT]) else {
        return None;
    };
    let length = bytes::before(&record[NAME..], 0);
    let good = (record[CHAPTER] <= MOST_CHAPTER) & is_padded(&record[NAME..], length);
    if !good {
        return None;
    }
    Some(Entry {
        verdict,
        chapter: record[CHAPTER],
        year: words::get16(record, YEAR),
        length,
    })
}

// What a record says; None where it is bad.
pub fn read(record: &[u8]) -> Option<Entry>
    ensures { result ≡ reading_of «record».now }
{
    if record.len() != Sizes::RECORD {
        return None;
    }
    read_whole(record)
}

// Whether what is to be made can be read back.
pub fn can_be_read(chapter: u8, name: &[u8]) -> bool
    ensures { result ≡ can_be_read chapter name.now }
{
    (chapter <= MOST_CHAPTER) & (name.len() <= MOST_NAME) & (bytes::before(name, 0) == name.len())
}

// What stands before the name.
fn head_bytes(verdict: Verdict, chapter: u8, year: u16) -> [u8; NAME]
    ensures { result ≡ head_of verdict chapter year }
{
    let [low, high] = year.to_le_bytes();
    [u8::from(verdict), chapter, low, high]
}

fn put_record(record: &mut [u8], verdict: Verdict, chapter: u8, year: u16, name: &[u8])
    requires { (length «record».old ≡ record_len) × (length name.now ≤ most_name) }
    ensures { «record».new ≡ record_of verdict chapter year name.now }
{
    let head = head_bytes(verdict, chapter, year);
    words::copy(record, VERDICT, &head);
    words::copy(record, NAME, name);
    words::clear(record, NAME + name.len(), MOST_NAME - name.len());
}

// Makes a record; answers whether it could. Where it could not, the lent record is as it was.
pub fn make(record: &mut [u8], verdict: Verdict, chapter: u8, year: u16, name: &[u8]) -> bool
    ensures { making result «record».new ≡ make_of «record».old verdict chapter year name.now }
{
    let can = (record.len() == Sizes::RECORD) & can_be_read(chapter, name);
    if can {
        put_record(record, verdict, chapter, year, name);
    }
    can
}
