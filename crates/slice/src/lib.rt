// `slice_tests`: a test of a range's length becomes a comparison of its bounds, in place.
#![tactic(auto)]

ghost use Rattle.std.specs.Prelude.{◌≡◌, ◌/◌, ◌≤◌, ◌-◌, ℕ, List, Option, ◌&&◌, replicate, length, option_map, IfSome};
ghost use Rattle.records.specs.Record.{record_at};
ghost use Rattle.put_record.specs.Store.{put_of};
ghost use Rattle.inst.specs.declared.Inst.TheVariants as i;
ghost use Rattle.ops.specs.Ops.{cmp_of};
ghost use Rattle.codec.specs.Codec.{reg_of, inst_of, code_of, rewritten_record};
ghost use Rattle.procedure.specs.Procedure.{Procedure, codes_of};
ghost use Rattle.procedure.specs.Lists.{holds};
ghost use Rattle.facts.specs.Storage.{operands_in};
ghost use Rattle.steps.specs.Slice as steps;
ghost use Rattle.procedure_parts.specs.Opened.{Parts, recoded, Holds};
ghost use Rattle.kc.specs.declared.Kc.TheVariants.{Unwritten};
ghost use Rattle.kc.specs.Storage.{kc_in, with_code};
ghost use Rattle.lengths.specs.Storage.{bounds_in, lengths_in, Keeps};
ghost use Rattle.slice.specs.Sliced.{Roomy, test_with, put_by, Done, test_at, passed_block, passed_all};
ghost use Rattle.slice.specs.Staged.{Staged};

use inst::{CmpOp, Inst, Kind, Reg};
use kc::Kc;
use lengths::{Bounds, Lengths, Row};
use ops::Numbered;
use records::Record;

mod noted;

// Whether a test of a length against 0 by an op becomes a comparison.
fn is_turned(op: CmpOp) -> bool
    ensures { result ≡ steps.is_turned op }
{
    matches!(op, CmpOp::Eq | CmpOp::Ne | CmpOp::Gt | CmpOp::Le)
}

// The op of that comparison.
fn turned(op: CmpOp) -> CmpOp
    ensures { result ≡ steps.turned op }
{
    match op {
        CmpOp::Eq | CmpOp::Le | CmpOp::Lt => CmpOp::Lt,
        CmpOp::Ne | CmpOp::Gt | CmpOp::Ge => CmpOp::Ge,
    }
}

// The bounds that a Cmp compares instead, if it is rewritten.
fn test_of(known: &Lengths, kc: &[Kc], op: CmpOp, a: Reg, z: Reg) -> Option<Bounds>
    ensures { option_map (test_with a.0) result
        ≡ steps.test_if (holds (kc_in kc.now z.0) 0 && steps.is_turned op) a.0 (steps.bounds_of a.0 (lengths_in known.now)) }
{
    if is_turned(op) && kc::is_zero(kc, z) {
        known.bounds_of(a)
    } else {
        None
    }
}

// The same for a record: none if it isn't a Cmp.
#[tactic(auto, using(codec::proofs::Table::inst_by_kind), unfolding(steps::specs::Slice::measure_of))]
fn tested(known: &Lengths, kc: &[Kc], r: Record) -> Option<Bounds>
    ensures test { (ops : List ℕ) → option_map (test_with r.p2) result ≡ steps.test_of (kc_in kc.now) ops (lengths_in known.now) (code_of r) }
    ensures cmp { IfSome result (λ b. inst_of r ≡ i.Cmp (cmp_of r.op) (reg_of r.p1) (reg_of r.p2) (reg_of r.p3)) }
{
    match Kind::from(r.kind) {
        Kind::Cmp => test_of(known, kc, CmpOp::of(r.op), Reg(r.p2), Reg(r.p3)),
        _ => None,
    }
}

// Rewrites record k, a Cmp.
fn put_cmp(code: &mut [u8], k: usize, r: Record, b: Bounds)
    ensures { code.new ≡ put_of code.old k (rewritten_record r
        (i.Cmp (steps.turned (cmp_of r.op)) (reg_of r.p1) (reg_of (steps.first (bounds_in b))) (reg_of (steps.second (bounds_in b))))) }
{
    let (first, second) = if b.down {
        (b.left, b.right)
    } else {
        (b.right, b.left)
    };
    let cmp = Inst::Cmp {
        op: turned(CmpOp::of(r.op)),
        dst: Reg(r.p1),
        a: first,
        b: second,
    };
    put_record::put_record(code, k, codec::rewritten(r, cmp));
}

// A record that says something of lengths where nothing is known: a MakeDope or BoundsLen.
#[tactic(auto, using(codec::proofs::Table::inst_by_kind), unfolding(steps::specs::Slice::measure_of))]
fn is_made(r: Record) -> bool
    ensures { result ≡ steps.is_made (steps.measure_of (inst_of r)) }
{
    matches!(Kind::from(r.kind), Kind::MakeDope | Kind::BoundsLen)
}

// Record k: it is looked at, and then what it writes is forgotten, and what it says is noted. True if it was rewritten. Most records
// are read where nothing is known: these are told by their kind alone.
fn slice_record(code: &mut [u8], k: usize, operands: &[u8], kc: &[Kc], known: &mut Lengths) -> bool
    ensures code { code.new ≡ put_by (test_at (kc_in kc.now) (operands_in operands.now) (lengths_in known.old) code.old k) code.old k }
    ensures any { result ≡ steps.some (test_at (kc_in kc.now) (operands_in operands.now) (lengths_in known.old) code.old k) }
    ensures known { Roomy known.old → lengths_in known.new
        ≡ steps.after (kc_in kc.now) (operands_in operands.now) (lengths_in known.old) (code_of (record_at code.old k)).inst }
    ensures keeps { Keeps 1 known.new known.old }
{
    let r = records::record_at(code, k);
    if known.is_empty() && !is_made(r) {
        return false;
    }
    let found = tested(known, kc, r);
    noted::note(known, operands, kc, r);
    match found {
        Some(b) => {
            put_cmp(code, k, r, b);
            true
        }
        None => false,
    }
}

// The records of a block, given its record.
fn slice_block(code: &mut [u8], r: Record, operands: &[u8], kc: &[Kc], known: &mut Lengths) -> bool
    ensures is { length code.old / 32 ≤ length known.old.rows.now
        → Done (passed_block (kc_in kc.now) (operands_in operands.now) r code.old) code.new result }
    ensures long { length known.new.rows.now ≡ length known.old.rows.now }
{
    known.clear();
    let mut any = false;
    for k in r.p1 as usize..usize::min(r.p2 as usize, code.len() / 32) {
        any |= slice_record(code, k, operands, kc, known);
    }
    any
}

// The blocks of a table, if there are as many rows as records; true if a Cmp was rewritten.
fn slice_tests(code: &mut [u8], heads: &[u8], operands: &[u8], kc: &[Kc], rows: &mut [Row]) -> bool
    ensures { length code.old / 32 ≤ length rows.old
        → Done (passed_all (kc_in kc.now) (operands_in operands.now) heads.now code.old) code.new result }
{
    let mut known = Lengths::new(rows);
    let mut any = false;
    for b in 0..heads.len() / 32 {
        any |= slice_block(code, records::record_at(heads, b), operands, kc, &mut known);
    }
    any
}

// Over tables for some registers and some records. Not inlined: small code must not touch the frame of the largest.
#[inline(never)]
fn slice_over<const REGISTERS: usize, const ROWS: usize>(
    code: &mut [u8],
    heads: &[u8],
    operands: &[u8],
) -> bool
    requires { (REGISTERS ≤ 756) × (ROWS ≤ 756) }
    ensures { length code.old / 32 ≤ ROWS
        → Done (passed_all (kc_in (with_code (replicate REGISTERS Unwritten) (codes_of code.old))) (operands_in operands.now)
        heads.now code.old) code.new result }
{
    let mut table = [Kc::default(); REGISTERS];
    let mut rows = [Row::default(); ROWS];
    kc::fill(code, &mut table);
    slice_tests(code, heads, operands, &table, &mut rows)
}

// `slice_tests` over code and block table in place, given how many registers there are; true if a Cmp was rewritten.
pub fn slice(code: &mut [u8], heads: &[u8], operands: &[u8], registers: usize) -> bool
    ensures { (p : Procedure) (x : Parts) (kinds : List ℕ) → Holds p (recoded x code.old heads.now) kinds
        → operands.now ≡ x.operands → registers ≡ length p.registers → Staged p x kinds code.new heads.now result }
{
    let most = registers.max(code.len() / 32);
    if most <= 64 {
        slice_over::<64, 64>(code, heads, operands)
    } else if most <= 128 {
        slice_over::<128, 128>(code, heads, operands)
    } else if most <= 256 {
        slice_over::<256, 256>(code, heads, operands)
    } else if most <= 512 {
        slice_over::<512, 512>(code, heads, operands)
    } else {
        slice_over::<756, 756>(code, heads, operands)
    }
}
