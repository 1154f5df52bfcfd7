// The instructions as values, with the tuple structs Reg, BlockId and StmtId.
#![tactic(auto)]

ghost use Rattle.std.specs.Prelude.{◌≡◌};
ghost use Rattle.inst.specs.Inst.{kind_of};
ghost use Rattle.inst.specs.Kinds.{kind_at, number_of};

use real::Real;

#[derive(Clone, Copy, Debug, Default, PartialEq, Eq, PartialOrd, Ord)]
pub struct Reg(pub u32);

#[derive(Clone, Copy, Debug, PartialEq, Eq, PartialOrd, Ord)]
pub struct BlockId(pub u32);

#[derive(Clone, Copy, Debug, Default, PartialEq, Eq)]
pub struct StmtId(pub u32);

// A part of the operands: where it starts, and its length.
#[derive(Clone, Copy, Debug, PartialEq, Eq)]
pub struct Regs {
    pub start: u32,
    pub len: u32,
}

#[derive(Clone, Copy, Debug, PartialEq, Eq)]
pub enum RegTy {
    I64,
    F64,
    Ptr,
    Sig,
    Handle,
}

#[derive(Clone, Copy, Debug, PartialEq, Eq)]
pub enum Width {
    B1,
    B4,
    B8,
    Sig,
}

#[derive(Clone, Copy, Debug, PartialEq, Eq)]
pub enum AddrSpace {
    Frame,
    Up(u8),
    Inst,
    Pkg(u32),
    Const(u32),
    Shared,
}

#[derive(Clone, Copy, Debug, PartialEq, Eq)]
pub enum IntOp {
    Add,
    Sub,
    Mul,
    Div,
    Rem,
    Mod,
    Pow,
}

#[derive(Clone, Copy, Debug, PartialEq, Eq)]
pub enum CmpOp {
    Eq,
    Ne,
    Lt,
    Le,
    Gt,
    Ge,
}

#[derive(Clone, Copy, Debug, PartialEq, Eq)]
pub enum BoolOp {
    And,
    Or,
    Xor,
    Not,
}

#[derive(Clone, Copy, Debug, PartialEq, Eq)]
pub enum CheckKind {
    Range,
    Index,
    IndexDown,
    Length,
    Null,
}

// The kinds of instructions, with their numbers in a record.
#[derive(Clone, Copy, Debug, PartialEq, Eq)]
pub enum Kind {
    Const,
    ConstF,
    Move,
    AddrOf,
    Select,
    Cmp,
    Bool,
    Bin,
    BinRange,
    Load,
    Store,
    Check,
    MakeDope,
    DopeLen,
    BoundsLen,
    Alloc,
    TakeBounds,
    CallNative,
    Br,
    CondBr,
    Case,
    Ret,
    Unreachable,
    Stmt,
}

// A number past the last is read as Stmt, as the definitions have it, so that every record has an instruction: by a TryFrom each
// caller would say Stmt itself.
impl From<u32> for Kind {
    ghost from_gives = { λ n k. k ≡ kind_at n };

    fn from(number: u32) -> Kind {
        match number {
            0 => Kind::Const,
            1 => Kind::ConstF,
            2 => Kind::Move,
            3 => Kind::AddrOf,
            4 => Kind::Select,
            5 => Kind::Cmp,
            6 => Kind::Bool,
            7 => Kind::Bin,
            8 => Kind::BinRange,
            9 => Kind::Load,
            10 => Kind::Store,
            11 => Kind::Check,
            12 => Kind::MakeDope,
            13 => Kind::DopeLen,
            14 => Kind::BoundsLen,
            15 => Kind::Alloc,
            16 => Kind::TakeBounds,
            17 => Kind::CallNative,
            18 => Kind::Br,
            19 => Kind::CondBr,
            20 => Kind::Case,
            21 => Kind::Ret,
            22 => Kind::Unreachable,
            _ => Kind::Stmt,
        }
    }
}

impl From<Kind> for u32 {
    ghost from_gives = { λ k n. n ≡ number_of k };

    fn from(kind: Kind) -> u32 {
        kind as u32
    }
}

// The 24 kinds, in the file's order.
#[derive(Clone, Copy, Default)]
pub enum Inst {
    Const {
        dst: Reg,
        v: u64,
    },
    ConstF {
        dst: Reg,
        v: Real,
    },
    Move {
        dst: Reg,
        src: Reg,
    },
    AddrOf {
        dst: Reg,
        space: AddrSpace,
        off: u32,
    },
    Select {
        dst: Reg,
        c: Reg,
        a: Reg,
        b: Reg,
    },
    Cmp {
        op: CmpOp,
        dst: Reg,
        a: Reg,
        b: Reg,
    },
    Bool {
        op: BoolOp,
        dst: Reg,
        a: Reg,
        b: Reg,
    },
    Bin {
        op: IntOp,
        dst: Reg,
        a: Reg,
        b: Reg,
    },
    BinRange {
        op: IntOp,
        dst: Reg,
        a: Reg,
        b: Reg,
        lo: Reg,
        hi: Reg,
        what: u32,
    },
    Load {
        dst: Reg,
        addr: Reg,
        w: Width,
    },
    Store {
        addr: Reg,
        src: Reg,
        w: Width,
    },
    Check {
        kind: CheckKind,
        v: Reg,
        lo: Reg,
        hi: Reg,
        what: u32,
    },
    MakeDope {
        at: Reg,
        parts: Regs,
    },
    DopeLen {
        dst: Reg,
        dope: Reg,
        dim: u8,
    },
    BoundsLen {
        dst: Reg,
        left: Reg,
        right: Reg,
        dir: Reg,
    },
    Alloc {
        dst: Reg,
        size: Reg,
    },
    TakeBounds {
        left: Reg,
        right: Reg,
        dir: Reg,
    },
    CallNative {
        native: u32,
        args: Regs,
        dst: Option<Reg>,
    },
    Br {
        to: BlockId,
    },
    CondBr {
        c: Reg,
        t: BlockId,
        f: BlockId,
    },
    Case {
        v: Reg,
        table: u32,
    },
    Ret {
        v: Option<Reg>,
    },
    Unreachable {
        what: u32,
    },
    #[default]
    Stmt,
}

// An instruction with its statement.
#[derive(Clone, Copy, Default)]
pub struct Code {
    pub inst: Inst,
    pub stmt: StmtId,
}

// Where a block starts and ends in the code; the end is exclusive.
#[derive(Clone, Copy, Debug, PartialEq, Eq)]
pub struct Block {
    pub start: u32,
    pub end: u32,
}

// An arm as its record has it: with its table, and whether it is the default (then its bounds are
// zero). The flag is no Option of the bounds: a wrong record's needn't be zero, and arm_of keeps them.
#[derive(Clone, Copy, Debug, PartialEq, Eq)]
pub struct ArmEntry {
    pub table: u32,
    pub low: u64,
    pub high: u64,
    pub to: BlockId,
    pub default: bool,
}

impl Inst {
    pub fn kind(self) -> Kind
        ensures { number_of result ≡ kind_of self }
    {
        match self {
            Inst::Const { .. } => Kind::Const,
            Inst::ConstF { .. } => Kind::ConstF,
            Inst::Move { .. } => Kind::Move,
            Inst::AddrOf { .. } => Kind::AddrOf,
            Inst::Select { .. } => Kind::Select,
            Inst::Cmp { .. } => Kind::Cmp,
            Inst::Bool { .. } => Kind::Bool,
            Inst::Bin { .. } => Kind::Bin,
            Inst::BinRange { .. } => Kind::BinRange,
            Inst::Load { .. } => Kind::Load,
            Inst::Store { .. } => Kind::Store,
            Inst::Check { .. } => Kind::Check,
            Inst::MakeDope { .. } => Kind::MakeDope,
            Inst::DopeLen { .. } => Kind::DopeLen,
            Inst::BoundsLen { .. } => Kind::BoundsLen,
            Inst::Alloc { .. } => Kind::Alloc,
            Inst::TakeBounds { .. } => Kind::TakeBounds,
            Inst::CallNative { .. } => Kind::CallNative,
            Inst::Br { .. } => Kind::Br,
            Inst::CondBr { .. } => Kind::CondBr,
            Inst::Case { .. } => Kind::Case,
            Inst::Ret { .. } => Kind::Ret,
            Inst::Unreachable { .. } => Kind::Unreachable,
            Inst::Stmt => Kind::Stmt,
        }
    }
}
