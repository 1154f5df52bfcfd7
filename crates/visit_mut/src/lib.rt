// The registers of an instruction, replaced by their roles (`Inst::visit_mut`).
#![tactic(auto)]

ghost use Rattle.std.specs.Prelude.{◌≡◌, ℕ};
ghost use Rattle.roles.specs.Exchange.{over, exchanged, through, written};
ghost use Rattle.roles.specs.Work.{Maps};
ghost use Rattle.visit_mut.specs.Pairs.{pairs_in};

use inst::{BoolOp, CheckKind, Inst, Reg};

// The new number of a register, by the first pair (old, new) that has it.
fn read_as(r: Reg, pairs: &[(Reg, Reg)]) -> Reg
    ensures { result ≡ over (through (pairs_in pairs.now)) r }
{
    for p in pairs {
        if p.0 == r {
            return p.1;
        }
    }
    r
}

// The new number of a written register. No plainer by `read_as`: a slice would be made of one pair.
fn write_as(r: Reg, old: Reg, new: Reg) -> Reg
    ensures { result ≡ over (written old.0 new.0) r }
{
    if r == old {
        return new;
    }
    r
}

// An instruction with `read` applied to the registers that it reads, and `write` to those that it writes.
#[tactic(auto, unfolding(roles::specs::Exchange::exchanged))]
fn visited<R: Fn(Reg) -> Reg, W: Fn(Reg) -> Reg>(i: Inst, read: R, write: W) -> Inst
    requires reads { R.IsAlwaysCallable read }
    requires writes { W.IsAlwaysCallable write }
    ensures { (σ τ : ℕ → ℕ) → Maps σ (R.post read) → Maps τ (W.post write) → result ≡ exchanged σ τ i }
{
    match i {
        Inst::Const { dst, v } => Inst::Const { dst: write(dst), v },
        Inst::ConstF { dst, v } => Inst::ConstF { dst: write(dst), v },
        Inst::Move { dst, src } => Inst::Move {
            dst: write(dst),
            src: read(src),
        },
        Inst::AddrOf { dst, space, off } => Inst::AddrOf {
            dst: write(dst),
            space,
            off,
        },
        Inst::Select { dst, c, a, b } => Inst::Select {
            dst: write(dst),
            c: read(c),
            a: read(a),
            b: read(b),
        },
        Inst::Cmp { op, dst, a, b } => Inst::Cmp {
            op,
            dst: write(dst),
            a: read(a),
            b: read(b),
        },
        Inst::Bool { op, dst, a, b } => Inst::Bool {
            op,
            dst: write(dst),
            a: read(a),
            b: if op == BoolOp::Not { b } else { read(b) },
        },
        Inst::Bin { op, dst, a, b } => Inst::Bin {
            op,
            dst: write(dst),
            a: read(a),
            b: read(b),
        },
        Inst::BinRange {
            op,
            dst,
            a,
            b,
            lo,
            hi,
            what,
        } => Inst::BinRange {
            op,
            dst: write(dst),
            a: read(a),
            b: read(b),
            lo: read(lo),
            hi: read(hi),
            what,
        },
        Inst::Load { dst, addr, w } => Inst::Load {
            dst: write(dst),
            addr: read(addr),
            w,
        },
        Inst::Store { addr, src, w } => Inst::Store {
            addr: read(addr),
            src: read(src),
            w,
        },
        Inst::Check {
            kind,
            v,
            lo,
            hi,
            what,
        } => Inst::Check {
            kind,
            v: read(v),
            lo: if kind == CheckKind::Null {
                lo
            } else {
                read(lo)
            },
            hi: match kind {
                CheckKind::Range | CheckKind::Index | CheckKind::IndexDown => read(hi),
                CheckKind::Length | CheckKind::Null => hi,
            },
            what,
        },
        Inst::MakeDope { at, parts } => Inst::MakeDope {
            at: read(at),
            parts,
        },
        Inst::DopeLen { dst, dope, dim } => Inst::DopeLen {
            dst: write(dst),
            dope: read(dope),
            dim,
        },
        Inst::BoundsLen {
            dst,
            left,
            right,
            dir,
        } => Inst::BoundsLen {
            dst: write(dst),
            left: read(left),
            right: read(right),
            dir: read(dir),
        },
        Inst::Alloc { dst, size } => Inst::Alloc {
            dst: write(dst),
            size: read(size),
        },
        Inst::TakeBounds { left, right, dir } => Inst::TakeBounds {
            left: write(left),
            right: write(right),
            dir: write(dir),
        },
        Inst::CallNative { native, args, dst } => Inst::CallNative {
            native,
            args,
            dst: dst.map(write),
        },
        Inst::Br { to } => Inst::Br { to },
        Inst::CondBr { c, t, f } => Inst::CondBr { c: read(c), t, f },
        Inst::Case { v, table } => Inst::Case { v: read(v), table },
        Inst::Ret { v } => Inst::Ret { v: v.map(read) },
        Inst::Unreachable { what } => Inst::Unreachable { what },
        Inst::Stmt => Inst::Stmt,
    }
}

// An instruction with the registers that it reads replaced by some pairs, and `new` for `old` where
// it writes.
pub fn exchange(i: Inst, pairs: &[(Reg, Reg)], old: Reg, new: Reg) -> Inst
    ensures { result ≡ exchanged (through (pairs_in pairs.now)) (written old.0 new.0) i }
{
    visited(i, |r| read_as(r, pairs), |r| write_as(r, old, new))
}

// visit_mut for what is read: each register is replaced by the first of some pairs (old, new).
pub fn renamed(i: Inst, pairs: &[(Reg, Reg)]) -> Inst
    ensures { result ≡ exchanged (through (pairs_in pairs.now)) (λ (r : ℕ). r) i }
{
    visited(i, |r| read_as(r, pairs), |r| r)
}
