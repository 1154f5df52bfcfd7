// Why something failed, in the system's words, on standard error.
use line::Line;
use std::fmt::Write;
use std::io::Error;

const STDERR: i32 = 2;

// What std puts after the system's words, before the error's number.
const NUMBERED: &[u8] = b" (os error ";

fn words_of(text: &[u8]) -> &[u8] {
    let found = text
        .windows(NUMBERED.len())
        .position(|part| part == NUMBERED);
    match found {
        Some(end) => &text[..end],
        None => text,
    }
}

// Writes a line to standard error: what failed, a colon and why.
pub fn fail(what: &[u8], error: Error) {
    let mut room = [0; 256];
    let mut line = Line::new(&mut room);
    let _ = write!(line, "{error}");
    io::write_all(STDERR, what);
    io::write_all(STDERR, b": ");
    io::write_all(STDERR, words_of(line.text()));
    io::write_all(STDERR, b"\n");
}
