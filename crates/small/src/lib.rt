// Blocks that may be copied: `dupable`, `small`, `latch`.
#![tactic(auto)]

ghost use Rattle.std.specs.Prelude.{◌≡◌, ◌&&◌, ◌||◌, ℕ, suc, ◌+◌, eqb, leb, length};
ghost use Rattle.codec.specs.Codec.{inst_of};
ghost use Rattle.procedure.specs.Procedure.{codes_of};
ghost use Rattle.procedure.specs.Lists.{any_of};
ghost use Rattle.steps.specs.Small as steps;

use ends::End;
use inst::{BlockId, Inst, IntOp, Kind};
use records::Record;

// Whether a record's kind is cheap and has no effects: what a copied block may hold besides its
// end.
// By the record's kind: by the instruction, this and the next cost 5.0 % more (docs/DECISIONS.md).
#[tactic(auto, using(codec::proofs::Table::inst_by_kind))]
pub fn dupable(r: Record) -> bool
    ensures { result ≡ steps.dupable (inst_of r) }
{
    matches!(
        Kind::from(r.kind),
        Kind::Const | Kind::ConstF | Kind::Move | Kind::Select | Kind::Cmp | Kind::Bool
    )
}

#[tactic(auto, using(codec::proofs::Table::inst_by_kind))]
fn small_end(r: Record) -> bool
    ensures { result ≡ steps.small_end (inst_of r) }
{
    matches!(Kind::from(r.kind), Kind::Br | Kind::CondBr | Kind::Ret)
}

// Whether there are at most four instructions: dupable ones, then a Br, CondBr or Ret.
pub fn small(code: &[u8]) -> bool
    ensures { result ≡ steps.small (codes_of code.now) }
{
    let n = code.len() / 32;
    if 4 < n {
        return false;
    }
    if n == 0 {
        return false;
    }
    (0..n - 1).all(|k| dupable(records::record_at(code, k)))
        && small_end(records::record_at(code, n - 1))
}

fn add_or_sub(op: IntOp) -> bool
    ensures { result ≡ steps.add_or_sub op }
{
    matches!(op, IntOp::Add | IntOp::Sub)
}

// Whether it is a Bin, or if `wide` a BinRange, that adds or subtracts.
fn step_by(wide: bool, i: Inst) -> bool
    ensures { result ≡ steps.step_by wide i }
{
    match i {
        Inst::Bin { op, .. } => add_or_sub(op),
        Inst::BinRange { op, .. } => wide && add_or_sub(op),
        _ => false,
    }
}

fn any_step(wide: bool, code: &[u8]) -> bool
    ensures { result ≡ any_of (λ x. steps.step_by wide x.inst) (codes_of code.now) }
{
    (0..code.len() / 32).any(|k| step_by(wide, ends::inst_at(code, k)))
}

// Whether it is a CondBr with an arm to the block after l.
fn tests_after(l: BlockId, e: End) -> bool
    ensures { result ≡ steps.tests_into (l.0 + 1) e }
{
    let next = l.0.checked_add(1).map(BlockId);
    matches!(e, End::CondBr(_, t, f) if Some(t) == next || Some(f) == next)
}

// Whether it is a Br to block l or an earlier one.
fn jumps_back(l: BlockId, e: End) -> bool
    ensures { result ≡ steps.jumps_back l.0 e }
{
    matches!(e, End::Br(to) if to <= l)
}

fn is_br(e: End) -> bool
    ensures { result ≡ steps.is_br e }
{
    matches!(e, End::Br(_))
}

fn two_to_br(n: usize, e: End) -> bool
    ensures { result ≡ (eqb n 2 && steps.is_br e) }
{
    n == 2 && is_br(e)
}

// Whether length and end are those of a step block.
fn step_shape(wide: bool, l: BlockId, code: &[u8]) -> bool
    ensures { result ≡ steps.step_shape wide l.0 (codes_of code.now) }
{
    let n = code.len() / 32;
    let e = ends::end_of(code);
    if two_to_br(n, e) {
        return true;
    }
    if !wide {
        return false;
    }
    if n > 4 {
        return false;
    }
    jumps_back(l, e)
}

// Whether block l is a loop test followed by its step block; `next` is empty if there is no next
// block.
pub fn latch(code: &[u8], next: &[u8], l: BlockId, wide: bool) -> bool
    ensures { result ≡ steps.latch (codes_of code.now) (codes_of next.now) l.0 wide }
{
    if !tests_after(l, ends::end_of(code)) {
        return false;
    }
    if !step_shape(wide, l, next) {
        return false;
    }
    any_step(wide, next)
}
