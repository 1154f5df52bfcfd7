// The lines of document 01's listing: counts, registers, blocks and code of a shortened form. And the line of the command
// `shorten`, which has the price too.
#![tactic(auto)]

ghost use Rattle.std.specs.Prelude.{◌≡◌, ◌++◌};
ghost use Rattle.steps.specs.Told.{told};
ghost use Rattle.line.specs.Line.{Put};
ghost use Rattle.listing.specs.Listing.{pair, counts_line, priced_line, moved_text, fresh_text, reg_line, block_line, code_line, code_text, places_text};

use inst::Block;
use line::Line;
use records::Record;
use steps::Shortening;

fn put_pair(line: &mut Line<'_>, a: u32, b: u32)
    ensures { Put line.old (pair a b) line.new }
{
    line.put_numbered(b" ", a as usize);
    line.put_numbered(b" ", b as usize);
}

fn put_moved(line: &mut Line<'_>, s: Shortening)
    ensures { Put line.old (moved_text (told (Ok s))) line.new }
{
    line.put_numbered(b"moved ", s.moved as usize);
    line.put_numbered(b" grown ", s.grown as usize);
}

fn put_fresh(line: &mut Line<'_>, s: Shortening)
    ensures { Put line.old (fresh_text (told (Ok s))) line.new }
{
    line.put_numbered(b" fresh ", s.fresh as usize);
    line.put_numbered(b" rescued ", s.rescued as usize);
}

pub fn put_counts(line: &mut Line<'_>, s: Shortening)
    ensures { Put line.old (counts_line (told (Ok s))) line.new }
{
    put_moved(line, s);
    put_fresh(line, s);
    line.put_byte(b'\n');
}

// The counts, and behind them the price in cents.
pub fn put_priced(line: &mut Line<'_>, s: Shortening, price: u32)
    ensures { Put line.old (priced_line (told (Ok s)) price) line.new }
{
    put_moved(line, s);
    put_fresh(line, s);
    line.put_numbered(b" price ", price as usize);
    line.put_byte(b'\n');
}

// Register i.
pub fn put_reg(line: &mut Line<'_>, i: usize, kind: u32)
    ensures { Put line.old (reg_line i kind) line.new }
{
    line.put_numbered(b"reg ", i);
    line.put_numbered(b" ", kind as usize);
    line.put_byte(b'\n');
}

// Block i.
pub fn put_block(line: &mut Line<'_>, i: usize, b: Block)
    ensures { Put line.old (block_line i b) line.new }
{
    line.put_numbered(b"block ", i);
    put_pair(line, b.start, b.end);
    line.put_byte(b'\n');
}

fn put_places(line: &mut Line<'_>, r: Record)
    ensures { Put line.old (places_text r) line.new }
{
    put_pair(line, r.p1, r.p2);
    put_pair(line, r.p3, r.p4);
    put_pair(line, r.p5, r.p6);
}

fn put_kind(line: &mut Line<'_>, i: usize, r: Record)
    ensures { Put line.old (code_text i r) line.new }
{
    line.put_numbered(b"code ", i);
    put_pair(line, r.kind, r.op);
    line.put_numbered(b" ", r.stmt as usize);
}

// Instruction i.
pub fn put_code(line: &mut Line<'_>, i: usize, r: Record)
    ensures { Put line.old (code_line i r) line.new }
{
    put_kind(line, i, r);
    put_places(line, r);
    line.put_byte(b'\n');
}
