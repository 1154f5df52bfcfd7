// The one-line answers: those of `read` and `tidy`.
ghost use Rattle.line.specs.Line.{Ended};

use inst::Kind;
use line::Line;
use records::{Class, Record};

// Puts the answer and returns whether the file was accepted.
pub fn put_reading(line: &mut Line<'_>, words: bool, bytes: &[u8]) -> bool
    ensures { Ended line.old line.new }
{
    if let Err(e) = read::read(bytes) {
        reasons::put_refusal(line, words, e);
        return false;
    }
    line.put(b"accepted\n");
    true
}

// Whether it is an AddrOf that writes the register.
fn is_address_of(r: Record, reg: u32) -> bool {
    Class::try_from(r.class) == Ok(Class::Instruction)
        && Kind::from(r.kind) == Kind::AddrOf
        && r.p1 == reg
}

// Whether an AddrOf writes a register of the file.
fn is_address(bytes: &[u8], reg: u32) -> bool {
    (0..bytes.len() / 32).any(|k| is_address_of(records::record_at(bytes, k), reg))
}

// Puts the answer and returns whether the file was accepted.
pub fn put_tidiness(line: &mut Line<'_>, words: bool, bytes: &[u8]) -> bool
    ensures { Ended line.old line.new }
{
    match tidy::tidy(bytes) {
        Ok(None) => line.put(b"yes\n"),
        Ok(Some(r)) => reasons::put_untidy(line, words, r.0, is_address(bytes, r.0)),
        Err(e) => {
            reasons::put_refusal(line, words, e);
            return false;
        }
    }
    true
}
