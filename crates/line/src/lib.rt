// A line of text that is put together in a lent buffer (there is no heap). What doesn't fit is left out.
#![tactic(auto)]

ghost use Rattle.std.specs.Prelude.{◌≤◌, ◌≡◌, [], ◌∷◌, length, take, min};

use std::fmt;

// The buffer, and the place in it that the next text goes to.
#[derive(Drop)]
pub struct Line<'a> {
    pub bytes: &'a mut [u8],
    pub at: usize,
    ghost fits: { at ≤ length bytes.now },
}

impl<'a> Line<'a> {
    ghost use Rattle.line.specs.Line.{Put, Numbered, decimal};

    // An empty line.
    pub fn new(bytes: &'a mut [u8]) -> Line<'a>
        ensures same { result.bytes.ghost_name ≡ bytes.entry.ghost_name }
        ensures kept { result.bytes.now ≡ bytes.old }
        ensures empty { result.at ≡ 0 }
    {
        Line { bytes, at: 0 }
    }

    // A line whose next text goes to this place of the buffer, or to its end if that comes first.
    pub fn starting_at(bytes: &'a mut [u8], at: usize) -> Line<'a>
        ensures same { result.bytes.ghost_name ≡ bytes.entry.ghost_name }
        ensures kept { result.bytes.now ≡ bytes.old }
        ensures place { result.at ≡ min at (length bytes.old) }
    {
        let start = usize::min(at, bytes.len());
        Line { bytes, at: start }
    }

    // Begins again.
    pub fn clear(&mut self)
        ensures same { self.new.bytes.ghost_name ≡ self.old.bytes.ghost_name }
        ensures kept { self.new.bytes.now ≡ self.old.bytes.now }
        ensures empty { self.new.at ≡ 0 }
    {
        self.at = 0;
    }

    // What was put.
    pub fn text(&self) -> &[u8]
        ensures { result.now ≡ take self.now.at self.now.bytes.now }
    {
        &self.bytes[..self.at]
    }

    pub fn put_byte(&mut self, b: u8)
        ensures { Put self.old (b ∷ []) self.new }
    {
        if self.at < self.bytes.len() {
            self.bytes[self.at] = b;
            self.at += 1;
        }
    }

    pub fn put(&mut self, text: &[u8])
        ensures { Put self.old text.now self.new }
    {
        for b in text {
            self.put_byte(*b);
        }
    }

    // Puts a number in decimal. Tried by `write!`, and the proof didn't close: it says what is written only where it is
    // known to succeed.
    pub fn put_number(&mut self, number: usize)
        ensures { Put self.old (decimal number) self.new }
    {
        let mut digits = [0u8; 20];
        let k = io::decimal(number as u64, &mut digits);
        self.put(&digits[..k]);
    }

    // Puts a text and a number after it.
    pub fn put_numbered(&mut self, text: &[u8], number: usize)
        ensures { Numbered self.old text.now number self.new }
    {
        self.put(text);
        self.put_number(number);
    }
}

impl fmt::Write for Line<'_> {
    ghost use Rattle.line.specs.Line.{Put};

    ghost write_str_gives = { Put };

    fn write_str(&mut self, s: &str) -> fmt::Result {
        self.put(s.as_bytes());
        Ok(())
    }
}
