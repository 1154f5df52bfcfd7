// The command `list`: document 01's listing of the shortened form, or a part of it.
ghost use Rattle.replies.specs.Kept.{SameText, SameLine};

use files::Unsaid;
use inst::Block;
use line::Line;
use parts::File;
use steps::Shortening;

#[derive(Clone, Copy, Debug, PartialEq, Eq)]
pub enum Part {
    All,
    Counts,
    Registers,
    Blocks,
    Code,
}

// The part of this name. No TryFrom: its error would say no more than `None` does.
pub fn part_named(word: &[u8]) -> Option<Part> {
    match word {
        b"counts" => Some(Part::Counts),
        b"registers" => Some(Part::Registers),
        b"blocks" => Some(Part::Blocks),
        b"code" => Some(Part::Code),
        _ => None,
    }
}

// The room that every result has.
pub const ROOM: usize = 61728;

// How much of a line's room is filled before it is written: the rest has room for a line of any
// record.
const FULL: usize = 16384;

// A listing on its way: where its lines go, and the line that they are put together in.
#[derive(Drop)]
struct Listing<'a, 'b, R> {
    rt: &'a R,
    line: &'a mut Line<'b>,
}

impl<R: Print> Listing<'_, '_, R> {
    // Writes what the line has, where it is full.
    fn turn(&mut self) -> Result<(), Unsaid>
        ensures { SameLine self.old.line self.new.line }
    {
        if self.line.at >= FULL {
            files::say(self.rt, self.line.text())?;
            self.line.clear();
        }
        Ok(())
    }

    // A line for each register.
    fn say_registers(&mut self, registers: &[u8]) -> Result<(), Unsaid>
        ensures { SameLine self.old.line self.new.line }
    {
        for i in 0..registers.len() / 32 {
            listing::put_reg(self.line, i, records::record_at(registers, i).kind);
            self.turn()?;
        }
        Ok(())
    }

    // A line for each block.
    fn say_blocks(&mut self, blocks: &[Block]) -> Result<(), Unsaid>
        ensures { SameLine self.old.line self.new.line }
    {
        for (i, b) in blocks.iter().enumerate() {
            listing::put_block(self.line, i, *b);
            self.turn()?;
        }
        Ok(())
    }

    // A line for each instruction of a block that starts at `first`.
    fn say_part(&mut self, first: u32, part: &[u8]) -> Result<(), Unsaid>
        ensures { SameLine self.old.line self.new.line }
    {
        for i in 0..part.len() / 32 {
            listing::put_code(self.line, first as usize + i, records::record_at(part, i));
            self.turn()?;
        }
        Ok(())
    }

    // A line for each instruction, block by block.
    fn say_code(&mut self, code: &[u8], blocks: &[Block]) -> Result<(), Unsaid>
        ensures { SameLine self.old.line self.new.line }
    {
        for (k, b) in blocks.iter().enumerate() {
            self.say_part(b.start, block_slice::block_in(code, blocks, k))?;
        }
        Ok(())
    }

    // Writes what the line has, and a line for each record that the part has.
    fn say_records(&mut self, part: Option<Part>, form: File<'_>) -> Result<(), Unsaid>
        ensures { SameLine self.old.line self.new.line }
    {
        let table = block_slice::table_of(form.heads());
        let blocks = &table[..usize::min(form.heads().len() / 32, table.len())];
        self.turn()?;
        if matches!(part, Some(Part::All | Part::Registers)) {
            self.say_registers(form.registers())?;
        }
        if matches!(part, Some(Part::All | Part::Blocks)) {
            self.say_blocks(blocks)?;
        }
        if matches!(part, Some(Part::All | Part::Code)) {
            self.say_code(form.code(), blocks)?;
        }
        files::say(self.rt, self.line.text())
    }
}

// A name that no register follows is followed by `none`.
#[tactic(auto, using(crate::proofs::Laws::put_keeps))]
fn put_none(line: &mut Line<'_>, registers: &[u8])
    ensures { SameText line.old line.new }
{
    if registers.is_empty() && line.at > 0 {
        line.put(b"none\n");
    }
}

// What comes before the records.
#[tactic(auto, using(crate::proofs::Laws::put_keeps))]
fn put_head(line: &mut Line<'_>, part: Option<Part>, s: Shortening, form: File<'_>)
    ensures { SameText line.old line.new }
{
    match part {
        Some(Part::All | Part::Counts) => listing::put_counts(line, s),
        Some(Part::Registers) => put_none(line, form.registers()),
        Some(Part::Blocks | Part::Code) | None => (),
    }
}

// Writes the listing, or why the file is refused, and returns whether it was accepted. Where the part is `None`, that of
// a name that no part has, nothing of the form is listed.
#[tactic(auto, using(crate::proofs::Laws::ended_keeps))]
pub fn say(
    rt: &impl Print,
    line: &mut Line<'_>,
    part: Option<Part>,
    words: bool,
    bytes: &[u8],
) -> Result<bool, Unsaid>
    ensures { SameText line.old line.new }
{
    let mut result = [0u8; ROOM];
    match shorten::shorten(bytes, &mut result) {
        Ok(s) => {
            let end = s.length.min(result.len());
            let form = File::open(&result[..end]);
            put_head(line, part, s, form);
            Listing { rt, line }.say_records(part, form)?;
            Ok(true)
        }
        Err(refusal) => {
            reasons::put_refusal(line, words, refusal);
            files::say(rt, line.text())?;
            Ok(false)
        }
    }
}
