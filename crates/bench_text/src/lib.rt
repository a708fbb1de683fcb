// The lines of a listing, appended to a lent buffer.
#![tactic(auto)]

ghost use Rattle.std.specs.Prelude.{◌≡◌, ◌+◌, ◌≤◌, ◌<◌, ◌^◌, [], ◌∷◌, length};
ghost use Rattle.bench_text.specs.Text.{digits, decimal, shown_text, field_text, fields_text, header_text, line_text, end_text};
ghost use Rattle.bench_text.specs.InnerText.{Begins, Resumes, HasRoom, Appends};

use bench_script::{numbers, parts};

// How the final line begins.
pub const END: [u8; 4] = *b"end,";

// A field of a line. A dash is a case and no None: it is printed as the others are.
#[derive(Clone, Copy)]
pub enum Shown {
    Dash,
    Letter(u8),
    Number(u32),
}

// An event's line.
#[derive(Clone, Copy)]
pub struct ListingLine {
    pub index: u32,
    pub letter: u8,
    pub unit: Shown,
    pub number: u32,
    pub sent: Shown,
    pub decision: Shown,
}

// A listing so far, in a lent buffer: from its front, or from a place in it on. Room is asked for text by text: it shrinks with each, so it is no field.
#[derive(Drop)]
pub struct Listing<'a> {
    buffer: &'a mut [u8],
    at: usize,
}

impl<'a> Listing<'a> {
    pub fn new(buffer: &'a mut [u8]) -> Self
        ensures { Begins buffer.entry result }
    {
        Listing { buffer, at: 0 }
    }

    // A listing that goes on at a place of the buffer: what is put into it stands from there on.
    pub fn resume(buffer: &'a mut [u8], at: usize) -> Self
        ensures { Resumes buffer.entry at result }
    {
        Listing { buffer, at }
    }

    // Where it ends in the buffer: of one from the front, how many bytes it has.
    pub fn len(&self) -> usize
        ensures { result ≡ self.now.at }
    {
        self.at
    }

    fn put_byte(&mut self, b: u8)
        requires { HasRoom self.old 1 }
        ensures { Appends self.old (b ∷ []) self.new }
    {
        self.buffer[self.at] = b;
        self.at += 1;
    }

    // n in decimal, in at most k digits: a recursion, as the definition is. Of what std's Display writes to a writer of our own its contracts do not say
    // that it is all written. The kit's `itoa` gives the same text: one library more, and a law that it is `decimal`, for these few lines.
    fn put_digits(&mut self, n: u32, k: usize)
        requires room { HasRoom self.old (length (digits k n)) }
        requires k_nonzero { 0 < k }
        requires n_bound { n < 10 ^ k }
        ensures { Appends self.old (digits k n) self.new }
    {
        if n < 10 {
            self.put_byte(b'0' + n as u8);
        } else {
            self.put_digits(n / 10, k - 1);
            self.put_byte(b'0' + (n % 10) as u8);
        }
    }

    #[tactic(auto, unfolding(crate::specs::Text::decimal))]
    fn put_number(&mut self, n: u32)
        requires { HasRoom self.old (length (decimal n)) }
        ensures { Appends self.old (decimal n) self.new }
    {
        self.put_digits(n, numbers::MAX_DIGITS);
    }

    #[tactic(auto, unfolding(crate::specs::Text::shown_text))]
    fn put_shown(&mut self, s: Shown)
        requires { HasRoom self.old (length (shown_text s)) }
        ensures { Appends self.old (shown_text s) self.new }
    {
        match s {
            Shown::Dash => self.put_byte(b'-'),
            Shown::Letter(b) => self.put_byte(b),
            Shown::Number(n) => self.put_number(n),
        }
    }

    // A field and the byte after it.
    #[tactic(auto, unfolding(crate::specs::Text::field_text))]
    fn put_field(&mut self, s: Shown, b: u8)
        requires { HasRoom self.old (length (field_text s b)) }
        ensures { Appends self.old (field_text s b) self.new }
    {
        self.put_shown(s);
        self.put_byte(b);
    }

    // Fields parted by commas, and byte 10.
    fn put_fields(&mut self, fields: &[Shown])
        requires { HasRoom self.old (length (fields_text fields.now)) }
        ensures { Appends self.old (fields_text fields.now) self.new }
    {
        match fields {
            [] => self.put_byte(parts::NEWLINE),
            [last] => self.put_field(*last, parts::NEWLINE),
            [first, rest @ ..] => {
                self.put_field(*first, parts::COMMA);
                self.put_fields(rest);
            }
        }
    }

    #[tactic(auto, unfolding(crate::specs::Text::header_text))]
    pub fn put_header(&mut self, letter: u8, n: u32, entry: u32)
        requires { HasRoom self.old (length (header_text letter n entry)) }
        ensures { Appends self.old (header_text letter n entry) self.new }
    {
        self.put_fields(&[
            Shown::Letter(letter),
            Shown::Number(n),
            Shown::Number(entry),
        ]);
    }

    #[tactic(auto, unfolding(crate::specs::Text::line_text))]
    pub fn put_line(&mut self, line: ListingLine)
        requires { HasRoom self.old (length (line_text line)) }
        ensures { Appends self.old (line_text line) self.new }
    {
        self.put_fields(&[
            Shown::Number(line.index),
            Shown::Letter(line.letter),
            line.unit,
            Shown::Number(line.number),
            line.sent,
            line.decision,
        ]);
    }

    #[tactic(auto, using(crate::proofs::Appending::copied))]
    fn put_text(&mut self, s: &[u8])
        requires { HasRoom self.old (length s.now) }
        ensures { Appends self.old s.now self.new }
    {
        let end = self.at + s.len();
        self.buffer[self.at..end].copy_from_slice(s);
        self.at = end;
    }

    // The final line.
    #[tactic(auto, unfolding(crate::specs::Text::end_text))]
    pub fn put_end(&mut self, events: u32, kept: u32)
        requires { HasRoom self.old (length (end_text events kept)) }
        ensures { Appends self.old (end_text events kept) self.new }
    {
        self.put_text(&END);
        self.put_fields(&[Shown::Number(events), Shown::Number(kept)]);
    }
}
