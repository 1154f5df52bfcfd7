// The parts of Emit: which blocks stay, what is rescued, and their records.
#![tactic(auto)]

ghost use Rattle.std.specs.Prelude.{◌+◌, ◌/◌, ◌≤◌, min, ◌≡◌, true, [], ◌∷◌, length, get_or};
ghost use Rattle.records.specs.Record.{records_of};
ghost use Rattle.inst.specs.declared.Inst.TheVariants as i;
ghost use Rattle.codec.specs.Codec.{inst_of, record_of};
ghost use Rattle.procedure.specs.Lists.{joined};
ghost use Rattle.procedure.specs.Procedure.{codes_of};
ghost use Rattle.blocks.specs.Blocks.{block_bytes, blocks_in};
ghost use Rattle.steps.specs.Emit as steps;
ghost use Rattle.emit_records.specs.Emitted.{marks, left, rescued_by, stays_by, rescued_in, branch_record};
ghost use Rattle.emit_records.specs.Emitted.{place, puts, Wrote};
ghost use Rattle.emit_records.specs.Emitted.{stays_at, lost_at, new_at, rescues_in, empty_in, heads_from};

use blocks::Blocks;
use ends::End;
use inst::{Block, BlockId, Kind, Reg, StmtId};
use records::Record;

// How many blocks a file has at most.
const MOST_BLOCKS: usize = 160;

// A Const, ConstF or AddrOf whose register one field of the code writes. By the record's kind: by the instruction it costs 2.0 %
// more (docs/DECISIONS.md).
#[tactic(auto, using(codec::proofs::Table::inst_by_kind), unfolding(ends::specs::Forms::fixed_of, ends::specs::Forms::form_of))]
pub fn is_rescued(r: Record, facts: &[u64]) -> bool
    ensures { result ≡ rescued_by facts.now (inst_of r) }
{
    matches!(
        Kind::from(r.kind),
        Kind::Const | Kind::ConstF | Kind::AddrOf
    ) && facts::is_single(facts, Reg(r.p1))
}

// A Br or CondBr.
fn is_jump(e: End) -> bool
    ensures { result ≡ steps.is_jump e }
{
    matches!(e, End::Br(_) | End::CondBr(_, _, _))
}

// A block that stays as it is: reached, the last, or one instruction and neither Br nor CondBr.
#[tactic(auto, using(ends::proofs::Laws::length_codes))]
pub fn stays(mark: bool, last: bool, code: &[u8]) -> bool
    ensures { result ≡ stays_by mark last (codes_of code.now) }
{
    mark || last || code.len() / 32 <= 1 && !is_jump(ends::end_of(code))
}

// Writes some bytes over as many others. By index: of std's `copy_from_slice` LLVM makes a call of `memmove` here, and the archives
// for C call only `memcpy` and `memset`.
fn copy(to: &mut [u8], from: &[u8])
    requires { length to.old ≡ length from.now }
    ensures { to.new ≡ from.now }
{
    for k in 0..from.len() {
        to[k] = from[k];
    }
}

// Records that are written one after the other into lent bytes (there is no heap), and the place of the next. What has no room is
// left out.
#[derive(Drop)]
pub struct Writer<'a> {
    pub out: &'a mut [u8],
    pub at: usize,
}

impl Writer<'_> {
    // Writes a record.
    pub fn put(&mut self, r: Record)
        ensures { Wrote self.old (r ∷ []) self.new }
    {
        if self.at < self.out.len() / 32 {
            put_record::put_record(self.out, self.at, r);
            self.at += 1;
        }
    }

    // Writes the records of a block one by one.
    fn put_each(&mut self, code: &[u8])
        ensures { Wrote self.old (records_of code.now) self.new }
    {
        for k in 0..code.len() / 32 {
            self.put(records::record_at(code, k));
        }
    }

    // Writes the records of a block, as bytes if there is room for all.
    pub fn put_block(&mut self, code: &[u8])
        ensures { Wrote self.old (records_of code.now) self.new }
    {
        let n = code.len() / 32;
        let room = self.out.len() / 32;
        if self.at <= room && n <= room - self.at {
            copy(
                &mut self.out[32 * self.at..32 * self.at + 32 * n],
                &code[..32 * n],
            );
            self.at += n;
        } else {
            self.put_each(code);
        }
    }

    // Writes the records of a block that are rescued. Each is read twice: to read it once costs 7 to 16 % more of Emit.
    pub fn put_rescued(&mut self, code: &[u8], facts: &[u64])
        ensures { Wrote self.old (rescued_in facts.now (records_of code.now)) self.new }
    {
        for k in 0..code.len() / 32 {
            if is_rescued(records::record_at(code, k), facts) {
                self.put(records::record_at(code, k));
            }
        }
    }

    // Writes a Br to the next block, with the first statement of a block.
    pub fn put_emptied(&mut self, next: BlockId, code: &[u8])
        ensures { Wrote self.old (branch_record next (codes_of code.now) ∷ []) self.new }
    {
        let first = records::record_at(code, 0);
        self.put(codec::br_record(next, StmtId(first.stmt)));
    }
}

// What `run` left, as Emit reads it: the blocks, and which of them are reached.
#[derive(Clone, Copy)]
pub struct Left<'a> {
    pub blocks: Blocks<'a>,
    pub seen: &'a [bool],
}

impl<'a> Left<'a> {
    // The code of block b; none past the last.
    fn code_at(&self, b: usize) -> &'a [u8]
        ensures { result.now ≡ block_bytes self.now.blocks.code.now self.now.blocks.table.now b }
    {
        self.blocks.block_by(self.blocks.record(b))
    }

    // The mark of block b; a block without a mark stays.
    fn mark_at(&self, b: usize) -> bool
        ensures { result ≡ get_or (marks self.now) b true }
    {
        if b < self.seen.len().min(MOST_BLOCKS) {
            self.seen[b]
        } else {
            true
        }
    }

    // Whether block b stays.
    fn keeps(&self, b: usize) -> bool
        ensures { result ≡ stays_at (marks self.now) (blocks_in self.now.blocks) b }
    {
        let last = self.blocks.len().saturating_sub(1) <= b;
        stays(self.mark_at(b), last, self.code_at(b))
    }

    // Writes the rescued records of block b, if it doesn't stay.
    fn put_lost(&self, to: &mut Writer, facts: &[u64], b: usize)
        ensures { Wrote to.old (lost_at facts.now (marks self.now) (left self.now) b) to.new }
    {
        if !self.keeps(b) {
            to.put_rescued(self.code_at(b), facts);
        }
    }

    // Writes the rescued records, in order.
    pub fn put_keep(&self, to: &mut Writer, facts: &[u64])
        ensures { Wrote to.old (rescues_in facts.now (marks self.now) (left self.now)) to.new }
    {
        for b in 0..self.blocks.len() {
            self.put_lost(to, facts, b);
        }
    }

    // Writes block b as Emit leaves it.
    fn put_new(&self, to: &mut Writer, b: usize)
        ensures { Wrote to.old (new_at (marks self.now) (left self.now) b) to.new }
    {
        let code = self.code_at(b);
        if self.keeps(b) {
            to.put_block(code);
        } else {
            to.put_emptied(BlockId((b + 1) as u32), code);
        }
    }

    // Writes the blocks as Emit leaves them, and their records into the block table; the first block includes everything that was
    // written before it.
    pub fn put_blocks(&self, to: &mut Writer, heads: &mut [u8])
        ensures code { Wrote to.old (joined (empty_in 0 (marks self.now) (left self.now))) to.new }
        ensures heads { to.old.at + length (joined (empty_in 0 (marks self.now) (left self.now)))
            ≤ length to.old.out.now / 32
            → length self.now.blocks.table.now / 32 ≤ length heads.old / 32
            → heads.new
            ≡ (puts (heads_from 0 (min to.old.at 4294967295) (empty_in 0 (marks self.now) (left self.now))) (place heads.old 0)).bytes }
    {
        let mut start = 0;
        for b in 0..self.blocks.len() {
            self.put_new(to, b);
            let end = u32::try_from(to.at).unwrap_or(u32::MAX);
            put_record::put_record(heads, b, items::record_of_block(Block { start, end }));
            start = end;
        }
    }
}
