// Refusals and untidy registers, as numbers, and in words if these are asked for. `line` and `words` stand apart: most of
// what is put into a line has no words, so a struct of both would be no plainer.
#![tactic(auto)]

ghost use Rattle.std.specs.Prelude.{◌≡◌, true};
ghost use Rattle.line.specs.Line.{plain, Added, Ended};

use line::Line;
use read::{Reason, Refusal};

// Whether a refusal is about a record; the others are about the whole file or the room.
fn is_of_record(reason: Reason) -> bool {
    matches!(
        reason,
        Reason::Record | Reason::Tiling | Reason::Terminator | Reason::Table | Reason::Name
    )
}

// The reason; what is said of a record follows `record` and its number. No Display: the clause says that the words are
// plain, and `write!` says what is written only where it is known to succeed.
fn words_of(reason: Reason) -> &'static [u8]
    ensures { plain result.now ≡ true }
{
    match reason {
        Reason::Length => b"the file is not a multiple of 32 bytes long, or is longer than 65536",
        Reason::Record => b" is wrong in itself, or its class is below that of the record before",
        Reason::Limit => b"the file has more records of a class than its limit, or no block",
        Reason::Tiling =>
            b": the block is empty, starts elsewhere than the one before ends, ends past the code, or is the last and leaves code over",
        Reason::Terminator => b": the block ends without a terminator, or has one before its end",
        Reason::Table => b": the arm's table is not the one due, or the last default is missing",
        Reason::Name => b" names a register, block, table or list that does not exist",
        Reason::ShorteningLimit =>
            b"the file has more than 480 registers or 480 instructions, the most that are shortened",
        Reason::Output => b"the buffer is too short for the shortened form",
        Reason::Ceiling => b"the tally would pass 9999999 cents",
    }
}

fn put_reason(line: &mut Line<'_>, refusal: Refusal)
    ensures { Added line.old line.new }
{
    if is_of_record(refusal.reason) {
        line.put_numbered(b"record ", refusal.place as usize);
    }
    line.put(words_of(refusal.reason));
}

// Ends a line after its words.
fn close(line: &mut Line<'_>)
    ensures { Ended line.old line.new }
{
    line.put(b")\n");
}

fn put_words(line: &mut Line<'_>, refusal: Refusal)
    ensures { Ended line.old line.new }
{
    line.put(b" (");
    put_reason(line, refusal);
    close(line);
}

fn put_numbers(line: &mut Line<'_>, refusal: Refusal)
    ensures { Added line.old line.new }
{
    line.put_numbered(b"refused ", u32::from(refusal.reason) as usize);
    line.put_numbered(b" ", refusal.place as usize);
}

// Puts the line of a refusal.
pub fn put_refusal(line: &mut Line<'_>, words: bool, refusal: Refusal)
    ensures { Ended line.old line.new }
{
    put_numbers(line, refusal);
    if words {
        put_words(line, refusal);
    } else {
        line.put_byte(b'\n');
    }
}

// What is wrong with a register that isn't used tidily; addresses have another rule.
fn offence(is_address: bool) -> &'static [u8]
    ensures { plain result.now ≡ true }
{
    if is_address {
        b" is written once, by an AddrOf, and read before it in its block or in a block that leads there"
    } else {
        b" is written once, and read elsewhere than later in the same block"
    }
}

fn put_untidy_words(line: &mut Line<'_>, reg: u32, is_address: bool)
    ensures { Ended line.old line.new }
{
    line.put_numbered(b" (register ", reg as usize);
    line.put(offence(is_address));
    close(line);
}

// Puts the line of a register that isn't used tidily. Whether an AddrOf writes it matters only for
// the words.
pub fn put_untidy(line: &mut Line<'_>, words: bool, reg: u32, is_address: bool)
    ensures { Ended line.old line.new }
{
    line.put_numbered(b"no ", reg as usize);
    if words {
        put_untidy_words(line, reg, is_address);
    } else {
        line.put_byte(b'\n');
    }
}
