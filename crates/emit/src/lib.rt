// Emit over lent storage: it leaves its result there for the steps after it and for the writer.
#![tactic(auto)]

ghost use Rattle.std.specs.Prelude.{ℕ, ◌/◌, ◌≤◌, length, Option};
ghost use Rattle.procedure.specs.Procedure.{Procedure};
ghost use Rattle.steps.specs.Thread.{Work};
ghost use Rattle.steps.specs.Run as run;
ghost use Rattle.facts.specs.Storage.{facts_in};
ghost use Rattle.emit.specs.Stage.{Ready, Emitted};

use blocks::Blocks;
use emit_records::{Left, Writer};

// How many instructions Emit leaves, and how many of them are rescued.
#[derive(Clone, Copy)]
pub struct Staged {
    pub n: usize,
    pub rescued: u32,
}

// Puts Emit's code and block table into the storage, with the rescued instructions first.
pub fn emit(code: &mut [u8], heads: &mut [u8], blocks: Blocks, arms: &[u8], facts: &[u64]) -> Staged
    ensures size { result.n ≤ length code.old / 32 }
    ensures emitted { (p : Procedure) (w : Work) (body : Option ℕ) (budget : ℕ)
        → Ready (run.emit (facts_in facts.now body budget) p w) p w blocks.entry.code.now blocks.entry.table.now arms.now
        (length code.old) (length heads.old)
        → Emitted (run.emit (facts_in facts.now body budget) p w) result code.new heads.new }
{
    let room = code.len() / 32;
    let seen = reach::reached(blocks, arms);
    let left = Left {
        blocks,
        seen: &seen,
    };
    let mut writer = Writer { out: code, at: 0 };
    left.put_keep(&mut writer, facts);
    let rescued = u32::try_from(writer.at).unwrap_or(u32::MAX);
    left.put_blocks(&mut writer, heads);
    let n = writer.at.min(room);
    Staged { n, rescued }
}
