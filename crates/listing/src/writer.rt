// A writer of text: the buffer that it was lent, and the place up to which it is written. Assumes nothing.
// No `fmt::Write`: a record's text is bytes that need be no `str`, and `write!` may answer an error, where a put that has room can't fail.
ghost use Rattle.std.specs.Prelude.{◌≡◌, ◌+◌, ◌≤◌, length};

use text::numbers;

// The most digits of a number of 64 bits.
pub const MOST_DECIMAL: usize = 20;

#[derive(Drop)]
pub struct Writer<'a> {
    out: &'a mut [u8],
    at: usize,
    ghost fits: { at ≤ length out.now },
}

impl<'a> Writer<'a> {
    ghost use Rattle.listing.specs.Listing as spec;
    ghost use Rattle.listing.specs.Listing.{most_decimal};
    ghost use Rattle.listing.specs.Writer.{Adds, HasRoom, AtStart};

    // At the buffer's start.
    pub fn new(out: &'a mut [u8]) -> Writer<'a>
        ensures { AtStart out.entry result }
    {
        Writer { out, at: 0 }
    }

    // How much is written.
    pub fn len(&self) -> usize
        ensures { result ≡ self.now.at }
    {
        self.at
    }

    // Bytes as they are: the fixed strings, and a record's text.
    pub fn put(&mut self, bytes: &[u8])
        requires { HasRoom self.old (length bytes.now) }
        ensures { Adds self.old bytes.now self.new }
    {
        words::copy(self.out, self.at, bytes);
        self.at += bytes.len();
    }

    // The digits are found from the last one on, and copied once their number is known.
    pub fn decimal(&mut self, x: u64)
        requires { HasRoom self.old most_decimal }
        ensures { Adds self.old (spec.decimal x) self.new × (self.new.at ≤ self.old.at + most_decimal) }
    {
        let mut text = [0u8; MOST_DECIMAL];
        let mut i = MOST_DECIMAL - 1;
        let mut y = x;
        // Not a `for`: how many turns there are is the number of digits, which only the last turn shows.
        while numbers::TEN <= y {
            text[i] = numbers::ZERO + (y % numbers::TEN) as u8;
            y = y / numbers::TEN;
            i -= 1;
        }
        text[i] = numbers::ZERO + y as u8;
        self.put(&text[i..MOST_DECIMAL]);
    }
}
