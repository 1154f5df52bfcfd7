// The blocks of some code, given by a lent slice of Block structs: document 01's form of the block table, in which `list` goes through
// the code. The steps have the table as records (`blocks`), since they rewrite it.
#![tactic(auto)]

ghost use Rattle.std.specs.Prelude.{◌≡◌, [], ℕ, ◌<◌, get_or};
ghost use Rattle.records.specs.Record.{record_at};
ghost use Rattle.items.specs.Items.{block_of};
ghost use Rattle.ends.specs.Ends.{end_of};
ghost use Rattle.block_slice.specs.Lent.{bytes_of_lent, none, lent_bytes, lent_blocks};

use ends::End;
use inst::Block;

// The part of a code that a block holds.
fn part_of<'a>(code: &'a [u8], b: Block) -> &'a [u8]
    ensures { result.now ≡ bytes_of_lent code.now b }
{
    records::part(code, b.start as usize, b.end as usize)
}

// The code of block k of a lent block table; none past the last block.
pub fn block_in<'a>(code: &'a [u8], blocks: &[Block], k: usize) -> &'a [u8]
    ensures { result.now ≡ lent_bytes code.now blocks.now k }
{
    match blocks.get(k) {
        Some(b) => part_of(code, *b),
        None => part_of(code, Block { start: 0, end: 0 }),
    }
}

// How block k of a lent block table ends.
#[tactic(auto, using(crate::proofs::Laws::codes_at))]
pub fn end_in(code: &[u8], blocks: &[Block], k: usize) -> End
    ensures { result ≡ end_of (get_or (lent_blocks code.now blocks.now) k []) }
{
    ends::end_of(block_in(code, blocks, k))
}

// The blocks of the records of a block table; past its last record, empty ones. Tried by `array::from_fn`, and the proof didn't close.
pub fn table_of(records: &[u8]) -> [Block; 160]
    ensures { (k : ℕ) → k < 160 → get_or result k none ≡ block_of (record_at records.now k) }
{
    let mut blocks = [Block { start: 0, end: 0 }; 160];
    for k in 0..160 {
        blocks[k] = items::block_of(records::record_at(records, k));
    }
    blocks
}
