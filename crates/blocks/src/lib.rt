// The blocks of some code, by its block table: each is a part of the code's bytes.
#![tactic(auto)]

ghost use Rattle.std.specs.Prelude.{◌≡◌, ◌-◌, ◌<◌, ◌≤◌, [], eqb, length, get_or};
ghost use Rattle.records.specs.declared.Record.{Record};
ghost use Rattle.put_record.specs.Store.{put_of};
ghost use Rattle.records.specs.Record.{record_at};
ghost use Rattle.inst.specs.declared.Inst.TheVariants as i;
ghost use Rattle.ends.specs.Ends.{end_of};
ghost use Rattle.procedure.specs.Procedure.{codes_of};
ghost use Rattle.blocks.specs.Blocks.{bytes_of_block, block_bytes, blocks_in};
ghost use Rattle.blocks.specs.Rewrite as spec;

use ends::End;
use inst::{BlockId, Inst, StmtId};
use records::Record;

// Some code and its block table. No model: contracts promise the bytes of a block too, which a list of blocks forgets.
#[derive(Clone, Copy)]
pub struct Blocks<'a> {
    pub code: &'a [u8],
    pub table: &'a [u8],
}

impl<'a> Blocks<'a> {
    // How many blocks there are.
    pub fn len(self) -> usize
        ensures { result ≡ length (blocks_in self.entry) }
    {
        self.table.len() / 32
    }

    // The record of block k; a blank one past the last block.
    pub fn record(self, k: usize) -> Record
        ensures { result ≡ record_at self.entry.table.now k }
    {
        records::record_at(self.table, k)
    }

    // The code of a block, given its record: a loop over a table has no BlockId.
    pub fn block_by(self, r: Record) -> &'a [u8]
        ensures { result.now ≡ bytes_of_block self.entry.code.now r }
    {
        records::part(self.code, r.p1 as usize, r.p2 as usize)
    }

    // The code of block k; none past the last block.
    pub fn block(self, k: BlockId) -> &'a [u8]
        ensures { result.now ≡ block_bytes self.entry.code.now self.entry.table.now k.0 }
    {
        self.block_by(self.record(k.0 as usize))
    }

    // How a block ends, given only its record and that of its last instruction. By `ends::end_of` of its code, that code would be cut
    // out first (docs/SPEED.md).
    #[tactic(auto, using(crate::proofs::Ends::ends_nowhere, crate::proofs::Ends::ends_there))]
    pub fn end_by(self, r: Record) -> End
        ensures { result ≡ end_of (codes_of (bytes_of_block self.entry.code.now r)) }
    {
        let end = usize::min(r.p2 as usize, self.code.len() / 32);
        if end <= r.p1 as usize {
            return End::Other;
        }
        ends::end_in(records::record_at(self.code, end - 1))
    }

    // How block k ends.
    #[tactic(auto, using(crate::proofs::Ends::by_record))]
    pub fn end_at(self, k: usize) -> End
        ensures { result ≡ end_of (get_or (blocks_in self.entry) k []) }
    {
        self.end_by(self.record(k))
    }

    // Whether block k has exactly one instruction.
    #[tactic(auto, using(crate::proofs::Ends::lone_size))]
    pub fn is_lone(self, k: BlockId) -> bool
        ensures { result ≡ eqb (length (get_or (blocks_in self.entry) k.0 [])) 1 }
    {
        let r = self.record(k.0 as usize);
        r.p1 as usize + 1 == usize::min(r.p2 as usize, self.code.len() / 32)
    }
}

// A block's code without its last instruction.
pub fn front<'a>(code: &'a [u8]) -> &'a [u8]
    ensures { result.now ≡ spec.front_bytes code.now }
{
    let n = code.len() / 32;
    &code[..32 * n.saturating_sub(1)]
}

// Rewrites the last record of a block, given the block's; does nothing if it is empty or ends past the code.
fn rewrite_last<F: FnOnce(Record) -> Record>(code: &mut [u8], r: Record, rewrite: F)
    requires { F.IsAlwaysCallable rewrite }
    ensures some { r.p1 < r.p2 → (x : Record) × F.post rewrite (record_at code.old (r.p2 - 1)) x
        × (code.new ≡ put_of code.old (r.p2 - 1) x) }
    ensures none { r.p2 ≤ r.p1 → code.new ≡ code.old }
{
    if r.p1 < r.p2 {
        let last = r.p2 as usize - 1;
        let old = records::record_at(code, last);
        put_record::put_record(code, last, rewrite(old));
    }
}

// Rewrites the last instruction of a block, given its record; does nothing if it is empty or ends past the code.
pub fn rewrite_end(code: &mut [u8], r: Record, i: Inst)
    ensures { code.new ≡ spec.end_rewritten code.old r i }
{
    rewrite_last(code, r, |old| codec::rewritten(old, i));
}

// Turns it into a Br, whose record is made at once. By `rewrite_end` a record of the instruction is made, then a second with the
// statement, and the first is thrown away: 106 machine instructions in place of 32, and no plainer.
pub fn rewrite_br(code: &mut [u8], r: Record, to: BlockId)
    ensures { code.new ≡ spec.end_rewritten code.old r (i.Br to) }
{
    rewrite_last(code, r, |old| codec::br_record(to, StmtId(old.stmt)));
}
