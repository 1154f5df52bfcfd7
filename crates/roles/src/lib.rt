// Which registers an instruction writes and reads, as a list of roles (`Inst::visit`).
#![tactic(auto)]

ghost use Rattle.std.specs.Prelude.{◌≡◌, ◌+◌, ◌≤◌, ◌++◌};
ghost use Rattle.roles.specs.Roles.{no_list, numbers_of, roles_of};
ghost use Rattle.roles.specs.Work.{listed, row_of, bool_roles, check_roles, call_roles, ret_roles};

use inst::{BoolOp, CheckKind, Inst, Reg, Regs};
use std::marker::Model;

// The registers of an instruction, in the order of visit_mut: the first `defs` of reg are written,
// the others up to `n` are read. Then the list of operands that it reads too, empty if it has none.
// An ArrayVec of five is no plainer: the call that adds an array may refuse, and `push` adds one register at a time.
#[derive(Clone, Copy)]
pub struct Roles {
    pub defs: usize,
    pub n: usize,
    pub reg: [Reg; 5],
    pub list: Regs,
}

impl Model for Roles {
    ghost use Rattle.std.specs.Prelude.{◌-◌, take, drop};
    ghost use Rattle.roles.specs.Roles.{Named, numbers_of};
    ghost use Rattle.roles.specs.Work.{Five};

    ghost Value = { Named };

    ghost view = { λ r. record {
      written = numbers_of (take r.defs r.reg);
      read = numbers_of (take (r.n - r.defs) (drop r.defs r.reg));
      list = r.list;
      defs = r.defs;
      n = r.n;
      reg = r.reg;
    } };

    ghost invariant = { λ r. Five r.defs r.n r.reg };

    ghost inverse = { λ q. record { defs = q.defs; n = q.n; reg = q.reg; list = q.list } };
}

impl Roles {
    // The registers that are written.
    pub fn written(&self) -> &[Reg]
        ensures { numbers_of result.now ≡ self.now.written }
    {
        &self.reg[..self.defs]
    }

    // The registers that are read, without those of the list.
    pub fn read(&self) -> &[Reg]
        ensures { numbers_of result.now ≡ self.now.read }
    {
        &self.reg[self.defs..self.n]
    }

    // Those written, then those read.
    pub fn fields(&self) -> &[Reg]
        ensures { numbers_of result.now ≡ self.now.written ++ self.now.read }
    {
        &self.reg[..self.n]
    }

    // The list of operands that are read.
    pub fn list(&self) -> Regs
        ensures { result ≡ self.now.list }
    {
        self.list
    }
}

fn no_list() -> Regs
    ensures { result ≡ no_list }
{
    Regs { start: 0, len: 0 }
}

fn row<const D: usize, const U: usize>(written: [Reg; D], read: [Reg; U]) -> Roles
    requires { D + U ≤ 5 }
    ensures { result ≡ row_of written.entry read.entry }
{
    let mut reg = [Reg(0); 5];
    reg[..D].copy_from_slice(&written);
    reg[D..D + U].copy_from_slice(&read);
    Roles {
        defs: D,
        n: D + U,
        reg,
        list: no_list(),
    }
}

fn with_list(mut row: Roles, list: Regs) -> Roles
    ensures { result ≡ listed row list }
{
    row.list = list;
    row
}

fn bool_roles(op: BoolOp, dst: Reg, a: Reg, b: Reg) -> Roles
    ensures { result ≡ bool_roles op dst a b }
{
    match op {
        BoolOp::And | BoolOp::Or | BoolOp::Xor => row([dst], [a, b]),
        BoolOp::Not => row([dst], [a]),
    }
}

fn check_roles(kind: CheckKind, v: Reg, lo: Reg, hi: Reg) -> Roles
    ensures { result ≡ check_roles kind v lo hi }
{
    match kind {
        CheckKind::Range | CheckKind::Index | CheckKind::IndexDown => row([], [v, lo, hi]),
        CheckKind::Length => row([], [v, lo]),
        CheckKind::Null => row([], [v]),
    }
}

fn call_roles(args: Regs, dst: Option<Reg>) -> Roles
    ensures { result ≡ call_roles args dst }
{
    match dst {
        Some(d) => with_list(row([d], []), args),
        None => with_list(row([], []), args),
    }
}

fn ret_roles(v: Option<Reg>) -> Roles
    ensures { result ≡ ret_roles v }
{
    match v {
        Some(r) => row([], [r]),
        None => row([], []),
    }
}

pub fn roles_of(i: Inst) -> Roles
    ensures { result ≡ roles_of i }
{
    match i {
        Inst::Const { dst, .. } => row([dst], []),
        Inst::ConstF { dst, .. } => row([dst], []),
        Inst::Move { dst, src } => row([dst], [src]),
        Inst::AddrOf { dst, .. } => row([dst], []),
        Inst::Select { dst, c, a, b } => row([dst], [c, a, b]),
        Inst::Cmp { dst, a, b, .. } => row([dst], [a, b]),
        Inst::Bool { op, dst, a, b } => bool_roles(op, dst, a, b),
        Inst::Bin { dst, a, b, .. } => row([dst], [a, b]),
        Inst::BinRange {
            dst,
            a,
            b,
            lo,
            hi,
            ..
        } => row([dst], [a, b, lo, hi]),
        Inst::Load { dst, addr, .. } => row([dst], [addr]),
        Inst::Store { addr, src, .. } => row([], [addr, src]),
        Inst::Check {
            kind,
            v,
            lo,
            hi,
            ..
        } => check_roles(kind, v, lo, hi),
        Inst::MakeDope { at, parts } => with_list(row([], [at]), parts),
        Inst::DopeLen { dst, dope, .. } => row([dst], [dope]),
        Inst::BoundsLen {
            dst,
            left,
            right,
            dir,
        } => row([dst], [left, right, dir]),
        Inst::Alloc { dst, size } => row([dst], [size]),
        Inst::TakeBounds { left, right, dir } => row([left, right, dir], []),
        Inst::CallNative { args, dst, .. } => call_roles(args, dst),
        Inst::Br { .. } => row([], []),
        Inst::CondBr { c, .. } => row([], [c]),
        Inst::Case { v, .. } => row([], [v]),
        Inst::Ret { v } => ret_roles(v),
        Inst::Unreachable { .. } => row([], []),
        Inst::Stmt => row([], []),
    }
}
