// A line that is written from its front, in an array with room for the longest of a listing.
ghost use Rattle.std.specs.Prelude.{◌≡◌, [], ◌%◌};
ghost use Rattle.lines.specs.Decimal.{digit_byte, decimal};
ghost use Rattle.lines.specs.Line.{line_of, with_byte, with_text};
ghost use Rattle.lines.specs.Text.{next};

// More than the longest line has: 20 digits, five times a space and 10 digits, and the newline.
pub const ROOM: usize = 80;

const SPACE: u8 = b' ';

pub(crate) const NEWLINE: u8 = b'\n';

// The first `len` bytes are the line, its newline with it; those behind are 0.
// An array with its length, and no vector of fixed capacity: `line_of`, which callers' contracts cite, says of the bytes behind that they are 0.
#[derive(Clone, Copy)]
pub struct Line {
    pub bytes: [u8; ROOM],
    pub len: usize,
}

impl Line {
    pub fn empty() -> Line
        ensures { result ≡ line_of [] }
    {
        Line {
            bytes: [0; ROOM],
            len: 0,
        }
    }

    // A byte behind the line, where there is room for it; the lines of a listing always have it.
    pub(crate) fn with_byte(mut self, b: u8) -> Line
        ensures { result ≡ with_byte self b }
    {
        if self.len < ROOM {
            self.bytes[self.len] = b;
            self.len += 1;
        }
        self
    }

    // Words behind the line, as far as there is room.
    pub fn with_words(self, words: &[u8]) -> Line
        ensures { result ≡ with_text self words.now }
    {
        let mut line = self;
        for b in words {
            line = line.with_byte(*b);
        }
        line
    }

    // The last digit of a number behind the line.
    fn with_last_digit(self, n: u64) -> Line
        ensures { result ≡ with_byte self (digit_byte (n % 10)) }
    {
        self.with_byte(b'0' + (n % 10) as u8)
    }

    // A number behind the line: its digits above the last, if there are any, and the last.
    pub fn with_number(self, n: u64) -> Line
        ensures { result ≡ with_text self (decimal n) }
    {
        if n < 10 {
            return self.with_last_digit(n);
        }
        self.with_number(n / 10).with_last_digit(n)
    }

    // A space and a number behind the line.
    pub(crate) fn with_next(self, n: u64) -> Line
        ensures { result ≡ with_text self (next n) }
    {
        self.with_byte(SPACE).with_number(n)
    }
}
