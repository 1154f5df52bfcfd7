ghost use Rattle.std.specs.Prelude.{◌≡◌, ℕ, List, Option, get_or};
ghost use Rattle.codec.specs.Codec.{inst_of};
ghost use Rattle.roles.specs.Roles.{operands_of};
ghost use Rattle.facts.specs.Storage.{operands_in};
ghost use Rattle.steps.specs.Slice as steps;
ghost use Rattle.kc.specs.Storage.{kc_in};
ghost use Rattle.lengths.specs.Storage.{lengths_in, Keeps};
ghost use Rattle.slice.specs.Sliced.{parts_of, Roomy};

use inst::{Kind, Reg, Regs};
use kc::Kc;
use lengths::{Bounds, Lengths};
use ops::Paired;
use records::Record;

// The parts of a MakeDope.
#[derive(Clone, Copy)]
struct Parts {
    left: Reg,
    right: Reg,
    dir: Reg,
}

// Operand k; 0 past the last.
#[tactic(auto, using(count_facts::proofs::Laws::operand_at))]
fn operand_at(operands: &[u8], k: usize) -> Reg
    ensures { result.0 ≡ get_or (operands_in operands.now) k 0 }
{
    items::operand_of(records::record_at(operands, k))
}

// A list of three operands; None if it has more or fewer.
fn parts_of(operands: &[u8], list: Regs) -> Option<Parts>
    ensures { result ≡ parts_of (operands_of (operands_in operands.now) list) }
{
    let start = list.start as usize;
    let n = (operands.len() / 32).saturating_sub(start);
    if n.min(list.len as usize) != 3 {
        return None;
    }
    Some(Parts {
        left: operand_at(operands, start),
        right: operand_at(operands, start + 1),
        dir: operand_at(operands, start + 2),
    })
}

// What a MakeDope adds.
fn note_made(known: &mut Lengths, operands: &[u8], kc: &[Kc], at: Reg, list: Regs)
    ensures known { Roomy known.old → lengths_in known.new
        ≡ steps.note (kc_in kc.now) (operands_in operands.now) (steps.makes at list) (lengths_in known.old) }
    ensures keeps { Keeps 1 known.new known.old }
{
    if let Some(p) = parts_of(operands, list) {
        if at == p.left || at == p.right {
            return;
        }
        if let Some(down) = kc::direction(kc, p.dir) {
            known.add_made(
                at,
                Bounds {
                    left: p.left,
                    right: p.right,
                    down,
                },
            );
        }
    }
}

// What a DopeLen adds, once what it writes is forgotten.
fn note_measured(known: &mut Lengths, d: Reg, at: Reg, dim: u32)
    ensures known { Roomy known.old → (kc : ℕ → Option ℕ) (ops : List ℕ) → lengths_in known.new
        ≡ steps.note kc ops (steps.measures d at dim) (lengths_in known.old) }
    ensures keeps { Keeps 1 known.new known.old }
{
    if dim == 0 && d != at && known.is_made(at) {
        known.add_measured(d, at);
    }
}

// What a BoundsLen adds, once what it writes is forgotten.
fn note_known(known: &mut Lengths, kc: &[Kc], d: Reg, left: Reg, right: Reg, dir: Reg)
    ensures known { Roomy known.old → (ops : List ℕ) → lengths_in known.new
        ≡ steps.note (kc_in kc.now) ops (steps.spans d left right dir) (lengths_in known.old) }
    ensures keeps { Keeps 1 known.new known.old }
{
    if d == left || d == right {
        return;
    }
    if let Some(down) = kc::direction(kc, dir) {
        known.add_known(d, Bounds { left, right, down });
    }
}

// What is known after record r.
#[tactic(auto, using(codec::proofs::Table::inst_by_kind), unfolding(steps::specs::Slice::measure_of))]
pub fn note(known: &mut Lengths, operands: &[u8], kc: &[Kc], r: Record)
    ensures known { Roomy known.old → lengths_in known.new
        ≡ steps.after (kc_in kc.now) (operands_in operands.now) (lengths_in known.old) (inst_of r) }
    ensures keeps { Keeps 1 known.new known.old }
{
    let q1 = Reg(r.p1);
    match Kind::from(r.kind) {
        Kind::Const
        | Kind::ConstF
        | Kind::Move
        | Kind::AddrOf
        | Kind::Select
        | Kind::Cmp
        | Kind::Bool
        | Kind::Bin
        | Kind::BinRange
        | Kind::Load
        | Kind::Alloc => known.forget(q1),
        Kind::MakeDope => {
            let list = Regs {
                start: r.p2,
                len: r.p3,
            };
            note_made(known, operands, kc, q1, list);
        }
        Kind::DopeLen => {
            known.forget(q1);
            note_measured(known, q1, Reg(r.p2), r.p3 % 256);
        }
        Kind::BoundsLen => {
            known.forget(q1);
            note_known(known, kc, q1, Reg(r.p2), Reg(r.p3), Reg(r.p4));
        }
        Kind::TakeBounds => {
            known.forget(q1);
            known.forget(Reg(r.p2));
            known.forget(Reg(r.p3));
        }
        Kind::CallNative => {
            if let Some(d) = Option::<Reg>::of_two(r.op, r.p4) {
                known.forget(d);
            }
        }
        Kind::Store
        | Kind::Check
        | Kind::Br
        | Kind::CondBr
        | Kind::Case
        | Kind::Ret
        | Kind::Unreachable
        | Kind::Stmt => {}
    }
}
