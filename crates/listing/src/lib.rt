// The listing's lines, each written from the start of a buffer on, and the writer that they are written with; who writes a line answers its length. Assumes nothing.
#![tactic(auto)]

pub mod writer;

ghost use Rattle.std.specs.Prelude.{◌≡◌, ◌+◌, ◌≤◌, length, Option};
ghost use Rattle.sizes.specs.Sizes.{record_len};
ghost use Rattle.text.specs.Text.{write_word, refused_word, record_word, header_line, bad_line};
ghost use Rattle.listing.specs.Listing as spec;
ghost use Rattle.listing.specs.Listing.{Wrote, most_decimal, most_request, most_row, kind_text, leaf_text, answer_text, request_text, row_of, format_row};
ghost use Rattle.listing.specs.Writer.{Adds, HasRoom};

pub use crate::writer::MOST_DECIMAL;
use crate::writer::Writer;
use desk::Kind;
use sizes::Refusal;
use store::Finished;
use text::bytes;

// The most bytes of a line of the listing.
pub const MOST_ROW: usize = 141;

// The fields of a line.
impl Writer<'_> {
    // A request's kind, with the space after it.
    fn kind(&mut self, kind: Kind)
        requires { HasRoom self.old (length write_word) }
        ensures { Adds self.old (kind_text kind) self.new × (self.new.at ≤ self.old.at + length write_word) }
    {
        self.put(match kind {
            Kind::Read => b"read ",
            Kind::Write => b"write ",
        });
    }

    // The leaf asked for; nothing was asked where the ask itself was refused.
    fn leaf(&mut self, leaf: Option<u16>)
        requires { HasRoom self.old most_decimal }
        ensures { Adds self.old (leaf_text leaf) self.new × (self.new.at ≤ self.old.at + most_decimal) }
    {
        match leaf {
            Some(l) => self.decimal(u64::from(l)),
            None => self.put(b"-"),
        }
    }

    fn refused(&mut self, r: Refusal)
        requires { HasRoom self.old (length refused_word + most_decimal) }
        ensures { Adds self.old (spec.refused_text r) self.new × (self.new.at ≤ self.old.at + length refused_word + most_decimal) }
    {
        self.put(b"refused ");
        self.decimal(u64::from(u8::from(r)));
    }

    // A text has no zeros, so that what stands before the first one is the text.
    fn record(&mut self, record: &[u8])
        requires { HasRoom self.old (length record_word + record_len) × (length «record».now ≡ record_len) }
        ensures { Adds self.old (spec.record_text «record».now) self.new × (self.new.at ≤ self.old.at + length record_word + record_len) }
    {
        self.put(b"record ");
        let n = bytes::before(record, 0);
        self.put(&record[..n]);
    }

    fn answer(&mut self, answer: Result<Finished, Refusal>, record: &[u8])
        requires { HasRoom self.old (length record_word + record_len) × (length «record».now ≡ record_len) }
        ensures { Adds self.old (answer_text answer «record».now) self.new × (self.new.at ≤ self.old.at + length record_word + record_len) }
    {
        match answer {
            Ok(Finished::Record) => self.record(record),
            Ok(Finished::Never) => self.put(b"never"),
            Ok(Finished::Done) => self.put(b"done"),
            Err(r) => self.refused(r),
        }
    }

    // A request's number, kind and id.
    fn request(&mut self, n: u64, kind: Kind, id: u16)
        requires { HasRoom self.old most_request }
        ensures { Adds self.old (request_text n kind id) self.new × (self.new.at ≤ self.old.at + most_request) }
    {
        self.decimal(n);
        self.put(b" ");
        self.kind(kind);
        self.decimal(u64::from(id));
        self.put(b" ");
    }
}

// A line for a request: its number, kind, id, the leaf asked for, the answer.
pub fn row(
    out: &mut [u8],
    n: u64,
    kind: Kind,
    id: u16,
    leaf: Option<u16>,
    answer: Result<Finished, Refusal>,
    record: &[u8],
) -> usize
    requires { (most_row ≤ length out.old) × (length «record».now ≡ record_len) }
    ensures { Wrote out.old 0 (row_of n kind id leaf answer «record».now) out.new result × (result ≤ most_row) }
{
    let mut w = Writer::new(out);
    w.request(n, kind, id);
    w.leaf(leaf);
    w.put(b" ");
    w.answer(answer, record);
    w.put(b"\n");
    w.len()
}

// The line that always comes first.
pub fn header(out: &mut [u8]) -> usize
    requires { most_row ≤ length out.old }
    ensures { Wrote out.old 0 header_line out.new result }
{
    let mut w = Writer::new(out);
    w.put(b"n op id leaf answer\n");
    w.len()
}

pub fn bad_line(out: &mut [u8]) -> usize
    requires { most_row ≤ length out.old }
    ensures { Wrote out.old 0 bad_line out.new result }
{
    let mut w = Writer::new(out);
    w.put(b"bad line\n");
    w.len()
}

// The line for a format that was refused.
pub fn format_row(out: &mut [u8], r: Refusal) -> usize
    requires { most_row ≤ length out.old }
    ensures { Wrote out.old 0 (format_row r) out.new result × (result ≤ most_row) }
{
    let mut w = Writer::new(out);
    w.put(b"0 format - - ");
    w.refused(r);
    w.put(b"\n");
    w.len()
}
