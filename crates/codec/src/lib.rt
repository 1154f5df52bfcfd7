// The instruction of a record, and the record of an instruction.
#![tactic(auto)]

ghost use Rattle.std.specs.Prelude.{◌≡◌};
ghost use Rattle.inst.specs.declared.Inst.TheVariants as i;
ghost use Rattle.inst.specs.Kinds.{number_of};
ghost use Rattle.codec.specs.Codec.{word_of, low_of, high_of, row_of, inst_of, code_of, inst_record, record_of, rewritten_record};

use inst::{
    AddrSpace, BlockId, BoolOp, CheckKind, CmpOp, Code, Inst, IntOp, Kind, Reg, Regs, StmtId, Width,
};
use ops::{Numbered, Paired};
use records::{Class, Record};

// The word whose low and high halves are in two fields. By bytes it is no plainer: u64::from_le_bytes takes eight in one array.
pub fn word_of(low: u32, high: u32) -> u64
    ensures { result ≡ word_of low high }
{
    u64::from(low) + 4294967296 * u64::from(high)
}

// The two halves of a word. A cast alone isn't proved to keep a word, and bytes would be joined to a field again.
pub fn low_of(v: u64) -> u32
    ensures { result ≡ low_of v }
{
    (v % 4294967296) as u32
}

pub fn high_of(v: u64) -> u32
    ensures { result ≡ high_of v }
{
    (v / 4294967296) as u32
}

// The instruction of a record. An invalid record gives one too: a kind past the last reads as Stmt. It is inlined: a caller that
// matches on the instruction then jumps once, by the record's kind, where the processor would have to guess two jumps.
#[tactic(auto, using(crate::proofs::Table::inst_by_kind))]
#[inline(always)]
pub fn inst_of(r: Record) -> Inst
    ensures { result ≡ inst_of r }
{
    let op = r.op;
    let q1 = Reg(r.p1);
    let q2 = Reg(r.p2);
    let q3 = Reg(r.p3);
    let q4 = Reg(r.p4);
    let q5 = Reg(r.p5);
    match Kind::from(r.kind) {
        Kind::Const => Inst::Const {
            dst: q1,
            v: word_of(r.p2, r.p3),
        },
        Kind::ConstF => Inst::ConstF {
            dst: q1,
            v: real::real_of(word_of(r.p2, r.p3)),
        },
        Kind::Move => Inst::Move { dst: q1, src: q2 },
        Kind::AddrOf => Inst::AddrOf {
            dst: q1,
            space: AddrSpace::of_two(op, r.p2),
            off: r.p3,
        },
        Kind::Select => Inst::Select {
            dst: q1,
            c: q2,
            a: q3,
            b: q4,
        },
        Kind::Cmp => Inst::Cmp {
            op: CmpOp::of(op),
            dst: q1,
            a: q2,
            b: q3,
        },
        Kind::Bool => Inst::Bool {
            op: BoolOp::of(op),
            dst: q1,
            a: q2,
            b: q3,
        },
        Kind::Bin => Inst::Bin {
            op: IntOp::of(op),
            dst: q1,
            a: q2,
            b: q3,
        },
        Kind::BinRange => Inst::BinRange {
            op: IntOp::of(op),
            dst: q1,
            a: q2,
            b: q3,
            lo: q4,
            hi: q5,
            what: r.p6,
        },
        Kind::Load => Inst::Load {
            dst: q1,
            addr: q2,
            w: Width::of(op),
        },
        Kind::Store => Inst::Store {
            addr: q1,
            src: q2,
            w: Width::of(op),
        },
        Kind::Check => Inst::Check {
            kind: CheckKind::of(op),
            v: q1,
            lo: q2,
            hi: q3,
            what: r.p4,
        },
        Kind::MakeDope => Inst::MakeDope {
            at: q1,
            parts: Regs {
                start: r.p2,
                len: r.p3,
            },
        },
        Kind::DopeLen => Inst::DopeLen {
            dst: q1,
            dope: q2,
            // A cast alone isn't proved to be the byte.
            dim: (r.p3 % 256) as u8,
        },
        Kind::BoundsLen => Inst::BoundsLen {
            dst: q1,
            left: q2,
            right: q3,
            dir: q4,
        },
        Kind::Alloc => Inst::Alloc { dst: q1, size: q2 },
        Kind::TakeBounds => Inst::TakeBounds {
            left: q1,
            right: q2,
            dir: q3,
        },
        Kind::CallNative => Inst::CallNative {
            native: r.p1,
            args: Regs {
                start: r.p2,
                len: r.p3,
            },
            dst: Option::<Reg>::of_two(op, r.p4),
        },
        Kind::Br => Inst::Br { to: BlockId(r.p1) },
        Kind::CondBr => Inst::CondBr {
            c: q1,
            t: BlockId(r.p2),
            f: BlockId(r.p3),
        },
        Kind::Case => Inst::Case { v: q1, table: r.p2 },
        Kind::Ret => Inst::Ret {
            v: Option::<Reg>::of_two(op, r.p1),
        },
        Kind::Unreachable => Inst::Unreachable { what: r.p1 },
        Kind::Stmt => Inst::Stmt,
    }
}

// A function and no From, as record_of: both types are another crate's.
pub fn code_of(r: Record) -> Code
    ensures { result ≡ code_of r }
{
    let inst = inst_of(r);
    Code {
        inst,
        stmt: StmtId(r.stmt),
    }
}

// The record of an instruction of a kind, with nothing in its places and statement 0.
fn row(kind: Kind) -> Record
    ensures { result ≡ row_of (number_of kind) 0 0 0 0 0 0 0 }
{
    Record::empty(Class::Instruction, u32::from(kind))
}

// The record of an instruction, with statement 0.
#[tactic(auto, unfolding(crate::specs::Codec::inst_record))]
fn inst_record(i: Inst) -> Record
    ensures { result ≡ inst_record i }
{
    match i {
        Inst::Const { dst, v } => Record {
            p1: dst.0,
            p2: low_of(v),
            p3: high_of(v),
            ..row(Kind::Const)
        },
        Inst::ConstF { dst, v } => {
            let bits = real::bits_of(v);
            Record {
                p1: dst.0,
                p2: low_of(bits),
                p3: high_of(bits),
                ..row(Kind::ConstF)
            }
        }
        Inst::Move { dst, src } => Record {
            p1: dst.0,
            p2: src.0,
            ..row(Kind::Move)
        },
        Inst::AddrOf { dst, space, off } => Record {
            op: space.number(),
            p1: dst.0,
            p2: space.argument(),
            p3: off,
            ..row(Kind::AddrOf)
        },
        Inst::Select { dst, c, a, b } => Record {
            p1: dst.0,
            p2: c.0,
            p3: a.0,
            p4: b.0,
            ..row(Kind::Select)
        },
        Inst::Cmp { op, dst, a, b } => Record {
            op: CmpOp::number(op),
            p1: dst.0,
            p2: a.0,
            p3: b.0,
            ..row(Kind::Cmp)
        },
        Inst::Bool { op, dst, a, b } => Record {
            op: BoolOp::number(op),
            p1: dst.0,
            p2: a.0,
            p3: b.0,
            ..row(Kind::Bool)
        },
        Inst::Bin { op, dst, a, b } => Record {
            op: IntOp::number(op),
            p1: dst.0,
            p2: a.0,
            p3: b.0,
            ..row(Kind::Bin)
        },
        Inst::BinRange {
            op,
            dst,
            a,
            b,
            lo,
            hi,
            what,
        } => Record {
            op: IntOp::number(op),
            p1: dst.0,
            p2: a.0,
            p3: b.0,
            p4: lo.0,
            p5: hi.0,
            p6: what,
            ..row(Kind::BinRange)
        },
        Inst::Load { dst, addr, w } => Record {
            op: Width::number(w),
            p1: dst.0,
            p2: addr.0,
            ..row(Kind::Load)
        },
        Inst::Store { addr, src, w } => Record {
            op: Width::number(w),
            p1: addr.0,
            p2: src.0,
            ..row(Kind::Store)
        },
        Inst::Check {
            kind,
            v,
            lo,
            hi,
            what,
        } => Record {
            op: CheckKind::number(kind),
            p1: v.0,
            p2: lo.0,
            p3: hi.0,
            p4: what,
            ..row(Kind::Check)
        },
        Inst::MakeDope { at, parts } => Record {
            p1: at.0,
            p2: parts.start,
            p3: parts.len,
            ..row(Kind::MakeDope)
        },
        Inst::DopeLen { dst, dope, dim } => Record {
            p1: dst.0,
            p2: dope.0,
            p3: u32::from(dim),
            ..row(Kind::DopeLen)
        },
        Inst::BoundsLen {
            dst,
            left,
            right,
            dir,
        } => Record {
            p1: dst.0,
            p2: left.0,
            p3: right.0,
            p4: dir.0,
            ..row(Kind::BoundsLen)
        },
        Inst::Alloc { dst, size } => Record {
            p1: dst.0,
            p2: size.0,
            ..row(Kind::Alloc)
        },
        Inst::TakeBounds { left, right, dir } => Record {
            p1: left.0,
            p2: right.0,
            p3: dir.0,
            ..row(Kind::TakeBounds)
        },
        Inst::CallNative { native, args, dst } => Record {
            op: dst.number(),
            p1: native,
            p2: args.start,
            p3: args.len,
            p4: dst.argument(),
            ..row(Kind::CallNative)
        },
        Inst::Br { to } => br_record(to, StmtId(0)),
        Inst::CondBr { c, t, f } => Record {
            p1: c.0,
            p2: t.0,
            p3: f.0,
            ..row(Kind::CondBr)
        },
        Inst::Case { v, table } => Record {
            p1: v.0,
            p2: table,
            ..row(Kind::Case)
        },
        Inst::Ret { v } => Record {
            op: v.number(),
            p1: v.argument(),
            ..row(Kind::Ret)
        },
        Inst::Unreachable { what } => Record {
            p1: what,
            ..row(Kind::Unreachable)
        },
        Inst::Stmt => row(Kind::Stmt),
    }
}

pub fn record_of(c: Code) -> Record
    ensures { result ≡ record_of c }
{
    Record {
        stmt: c.stmt.0,
        ..inst_record(c.inst)
    }
}

// The record of a Br.
#[tactic(auto, unfolding(crate::specs::Codec::inst_record))]
pub fn br_record(to: BlockId, stmt: StmtId) -> Record
    ensures { result ≡ record_of (record { inst = i.Br to; stmt = stmt }) }
{
    Record {
        stmt: stmt.0,
        p1: to.0,
        ..row(Kind::Br)
    }
}

// A record with another instruction in it: everything else stays.
pub fn rewritten(old: Record, i: Inst) -> Record
    ensures { result ≡ rewritten_record old i }
{
    record_of(Code {
        inst: i,
        stmt: StmtId(old.stmt),
    })
}
