// The records that aren't instructions, as far as the steps read or write them: registers, blocks, operands, arms.
#![tactic(auto)]

ghost use Rattle.std.specs.Prelude.{◌≡◌};
ghost use Rattle.items.specs.Items.{register_record, block_of, block_record, operand_of, arm_of};

use inst::{ArmEntry, Block, BlockId, Reg, RegTy};
use ops::Numbered;
use records::{Class, DEFAULT_ARM, Record};

// These are functions and no From: both types of each are another crate's.
pub fn record_of_register(x: RegTy) -> Record
    ensures { result ≡ register_record x }
{
    Record::empty(Class::Register, RegTy::number(x))
}

pub fn block_of(r: Record) -> Block
    ensures { result ≡ block_of r }
{
    Block {
        start: r.p1,
        end: r.p2,
    }
}

pub fn record_of_block(x: Block) -> Record
    ensures { result ≡ block_record x }
{
    Record {
        p1: x.start,
        p2: x.end,
        ..Record::empty(Class::Block, 0)
    }
}

pub fn operand_of(r: Record) -> Reg
    ensures { result ≡ operand_of r }
{
    Reg(r.p1)
}

pub fn arm_of(r: Record) -> ArmEntry
    ensures { result ≡ arm_of r }
{
    ArmEntry {
        table: r.p1,
        low: codec::word_of(r.p2, r.p3),
        high: codec::word_of(r.p4, r.p5),
        to: BlockId(r.p6),
        default: r.kind == DEFAULT_ARM,
    }
}
