// The work storage of Thread: the block that is edited is the last one and grows at its end.
#![tactic(auto)]

ghost use Rattle.std.specs.Prelude.{◌≡◌};
ghost use Rattle.records.specs.Record.{record_at};
ghost use Rattle.blocks.specs.Blocks.{blocks_of, blocks_in};
ghost use Rattle.arena.specs.Arena as spec;

use blocks::Blocks;
use inst::{Block, BlockId, Code};
use records::Record;

// Lent, since there is no heap: the code and the block table, and how many records of the code are
// in use. That the slices stay is a fact about before and after, which no ghost field can hold.
#[derive(Drop)]
pub struct Space<'a> {
    pub work: &'a mut [u8],
    pub table: &'a mut [u8],
    pub top: usize,
}

fn size_of(r: Record) -> usize
    ensures { result ≡ spec.size_of r }
{
    r.p2.saturating_sub(r.p1) as usize
}

fn is_last(r: Record, top: usize) -> bool
    ensures { result ≡ spec.is_last r top }
{
    r.p1 <= r.p2 && r.p2 as usize == top
}

fn can_pop(r: Record, top: usize) -> bool
    ensures { result ≡ spec.popped r top }
{
    r.p1 < r.p2 && r.p2 as usize == top
}

// Whether there is room for n more records.
pub fn has_room(work: &[u8], top: usize, n: usize) -> bool
    ensures { result ≡ spec.room work.now top n }
{
    let limit = (work.len() / 32).min(u32::MAX as usize);
    top <= limit && n <= limit - top
}

impl Space<'_> {
    // Whether there is room for n more records.
    pub fn has_room(&self, n: usize) -> bool
        ensures { result ≡ spec.room self.now.work.now self.now.top n }
    {
        has_room(self.work, self.top, n)
    }

    fn moves(&self, r: Record) -> bool
        ensures { result ≡ spec.moves self.now.work.now r self.now.top }
    {
        let n = size_of(r);
        !is_last(r, self.top) && r.p1 as usize + n <= self.top && self.has_room(n)
    }

    fn grows(&self, r: Record) -> bool
        ensures { result ≡ spec.grows self.now.work.now r self.now.top }
    {
        is_last(r, self.top) && self.has_room(1)
    }

    // Where block k is.
    fn block(&self, k: BlockId) -> Record
        ensures { result ≡ record_at self.now.table.now k.0 }
    {
        records::record_at(self.table, k.0 as usize)
    }

    // The code, by its block table.
    pub fn blocks(&self) -> Blocks<'_>
        ensures code { result.code.now ≡ self.now.work.now }
        ensures table { result.table.now ≡ self.now.table.now }
        ensures blocks { blocks_in result ≡ blocks_of self.now.work.now self.now.table.now }
    {
        Blocks {
            code: self.work,
            table: self.table,
        }
    }

    // Writes the start and end of block k.
    fn point(&mut self, k: BlockId, start: u32, end: u32)
        ensures same { spec.SameSlices self.old self.new }
        ensures rest { (self.new.work.now ≡ self.old.work.now) × (self.new.top ≡ self.old.top) }
        ensures pointed { self.new.table.now ≡ spec.pointed self.old.table.now k.0 start end }
    {
        put_record::put_record(
            self.table,
            k.0 as usize,
            items::record_of_block(Block { start, end }),
        );
    }

    // Moves block k to the top, unless it is there or has no room.
    pub fn to_end(&mut self, k: BlockId)
        ensures same { spec.SameSlices self.old self.new }
        ensures moved { spec.arena_in self.new ≡ spec.to_end k.0 (spec.arena_in self.old) }
    {
        let r = self.block(k);
        if self.moves(r) {
            let n = size_of(r);
            let from = 32 * r.p1 as usize;
            self.work.copy_within(from..from + 32 * n, 32 * self.top);
            self.point(k, self.top as u32, (self.top + n) as u32);
            self.top += n;
        }
    }

    // Removes the last record of block k, if the block ends at the top.
    pub fn pop(&mut self, k: BlockId)
        ensures same { spec.SameSlices self.old self.new }
        ensures code { self.new.work.now ≡ self.old.work.now }
        ensures popped { spec.topped_in self.new ≡ spec.pop k.0 (spec.topped_in self.old) }
    {
        let r = self.block(k);
        if can_pop(r, self.top) {
            self.point(k, r.p1, r.p2 - 1);
            self.top -= 1;
        }
    }

    // Appends an instruction to block k, if it ends at the top and there is room.
    pub fn push(&mut self, k: BlockId, c: Code)
        ensures same { spec.SameSlices self.old self.new }
        ensures pushed { spec.arena_in self.new ≡ spec.push k.0 c (spec.arena_in self.old) }
    {
        let r = self.block(k);
        if self.grows(r) {
            put_record::put_record(self.work, self.top, codec::record_of(c));
            self.point(k, r.p1, (self.top + 1) as u32);
            self.top += 1;
        }
    }

    // Appends some instructions to block k, one after the other.
    pub fn append(&mut self, k: BlockId, code: &[Code])
        ensures same { spec.SameSlices self.old self.new }
        ensures appended { spec.arena_in self.new ≡ spec.push_all k.0 code.now (spec.arena_in self.old) }
    {
        for c in code {
            self.push(k, *c);
        }
    }
}
