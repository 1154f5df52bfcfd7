// Names as they are printed: what a terminal would obey, what is invisible and what isn't UTF-8 is
// shown byte by byte as \x and two digits, and a backslash as two. So no name can print a line of
// its own, and the name can be recovered from what is shown.
#![tactic(auto)]

mod unseen;

ghost use Rattle.std.specs.Prelude.{[], ◌∷◌, encode_utf8};
ghost use Rattle.line.specs.Line.{Put};
ghost use Rattle.quote.specs.Quote.{Quoted, hex_of};

use line::Line;

// A path of 4,096 bytes, each quoted, and an answer in words.
pub const ROOM: usize = 16768;

// Puts a byte as two digits.
pub fn put_digits(line: &mut Line<'_>, b: u8)
    ensures { Put line.old (hex_of b) line.new }
{
    let mut digits = [0u8; 16];
    let k = io::hex(u64::from(b), 2, &mut digits);
    line.put(&digits[..k]);
}

fn put_hex(line: &mut Line<'_>, b: u8)
    ensures { Quoted line.old (b ∷ []) line.new }
{
    line.put(b"\\x");
    put_digits(line, b);
}

// A byte of a name; a hidden one is shown by its digits, and so is every control byte.
fn put_shown(line: &mut Line<'_>, hidden: bool, b: u8)
    ensures { Quoted line.old (b ∷ []) line.new }
{
    if hidden || b < 32 || b == 127 {
        put_hex(line, b);
    } else if b == b'\\' {
        line.put(b"\\\\");
    } else {
        line.put_byte(b);
    }
}

fn put_bytes(line: &mut Line<'_>, hidden: bool, bytes: &[u8])
    ensures { Quoted line.old bytes.now line.new }
{
    for b in bytes {
        put_shown(line, hidden, *b);
    }
}

fn put_char(line: &mut Line<'_>, c: char)
    ensures { Quoted line.old (encode_utf8 c) line.new }
{
    let mut room = [0u8; 4];
    let bytes = c.encode_utf8(&mut room).as_bytes();
    put_bytes(line, unseen::is_hidden(c), bytes);
}

fn put_text(line: &mut Line<'_>, text: &str)
    ensures { Quoted line.old text.now line.new }
{
    for c in text.chars() {
        put_char(line, c);
    }
}

// Puts a name.
pub fn put_name(line: &mut Line<'_>, name: &[u8])
    ensures { Quoted line.old name.now line.new }
{
    for chunk in name.utf8_chunks() {
        put_text(line, chunk.valid());
        put_bytes(line, true, chunk.invalid());
    }
}
