// How a block ends: Br, CondBr, Case or another terminator.
#![tactic(auto)]

ghost use Rattle.std.specs.Prelude.{◌≡◌};
ghost use Rattle.codec.specs.Codec.{inst_of};
ghost use Rattle.procedure.specs.Procedure.{codes_of};
ghost use Rattle.ends.specs.Ends.{code_at, view_of, end_of, lone_of};

use inst::{BlockId, Inst, Kind, Reg};
use records::Record;

// How a block ends, as the branch steps look at it.
#[derive(Clone, Copy)]
pub enum End {
    Br(BlockId),
    CondBr(Reg, BlockId, BlockId),
    Case(u32),
    Other,
}

// Instruction k of some code; past the end, that of a blank record.
pub fn inst_at(code: &[u8], k: usize) -> Inst
    ensures { result ≡ (code_at (codes_of code.now) k).inst }
{
    codec::inst_of(records::record_at(code, k))
}

// How an instruction ends its block.
#[tactic(auto, unfolding(crate::specs::Ends::view_of, crate::specs::Forms::form_of))]
pub fn view_of(i: Inst) -> End
    ensures { result ≡ view_of i }
{
    match i {
        Inst::Br { to } => End::Br(to),
        Inst::CondBr { c, t, f } => End::CondBr(c, t, f),
        Inst::Case { table, .. } => End::Case(table),
        _ => End::Other,
    }
}

// The same for a record: only its kind and its fields are read, since by the instruction drawn files of 240 take
// 9.3 % more machine instructions (docs/DECISIONS.md). A function and no From: a view, which forgets most of an instruction.
#[tactic(auto, using(codec::proofs::Table::inst_by_kind), unfolding(crate::specs::Ends::view_of, crate::specs::Forms::form_of))]
pub fn end_in(r: Record) -> End
    ensures { result ≡ view_of (inst_of r) }
{
    match Kind::from(r.kind) {
        Kind::Br => End::Br(BlockId(r.p1)),
        Kind::CondBr => End::CondBr(Reg(r.p1), BlockId(r.p2), BlockId(r.p3)),
        Kind::Case => End::Case(r.p2),
        _ => End::Other,
    }
}

// The end of a block.
pub fn end_of(code: &[u8]) -> End
    ensures { result ≡ end_of (codes_of code.now) }
{
    let n = code.len() / 32;
    if n == 0 {
        return End::Other;
    }
    end_in(records::record_at(code, n - 1))
}

// The end of a block that holds nothing else.
pub fn lone_of(code: &[u8]) -> End
    ensures { result ≡ lone_of (codes_of code.now) }
{
    if code.len() / 32 == 1 {
        return end_in(records::record_at(code, 0));
    }
    End::Other
}
