// The numbers of the ops, and the ops of the numbers.
#![tactic(auto)]

ghost use Rattle.std.specs.Prelude.{◌≡◌, ℕ, Bool, true};
ghost use Rattle.ops.specs.Ops.{cmp_of, cmp_num, bool_of, bool_num, int_of, int_num, width_of, width_num, check_of, check_num, reg_ty_of, reg_ty_num};
ghost use Rattle.ops.specs.Ops.{space_of, space_num, space_arg, space_in_range, opt_of, opt_num, opt_arg};
ghost use Rattle.std.proofs.Common.{rules};

use inst::{AddrSpace, BoolOp, CheckKind, CmpOp, IntOp, Reg, RegTy, Width};

// An enum whose cases have numbers in a record. A number that it doesn't have is read as its last case. Not `From`, as
// `Kind` has it in inst: From has no law that a number comes back.
pub trait Numbered: Sized {
    ghost of_number: { ℕ → Self };

    ghost number: { Self → ℕ };

    fn of(op: u32) -> Self
        ensures { result ≡ of_number op };

    fn number(op: Self) -> u32
        ensures { result ≡ number op };

    ghost back: { (x : Self) → of_number (number x) ≡ x };
}

impl Numbered for CmpOp {
    ghost of_number = { cmp_of };

    ghost number = { cmp_num };

    ghost back = { Prim.search rules };

    fn of(op: u32) -> CmpOp {
        match op {
            0 => CmpOp::Eq,
            1 => CmpOp::Ne,
            2 => CmpOp::Lt,
            3 => CmpOp::Le,
            4 => CmpOp::Gt,
            _ => CmpOp::Ge,
        }
    }

    fn number(op: CmpOp) -> u32 {
        op as u32
    }
}

impl Numbered for BoolOp {
    ghost of_number = { bool_of };

    ghost number = { bool_num };

    ghost back = { Prim.search rules };

    fn of(op: u32) -> BoolOp {
        match op {
            0 => BoolOp::And,
            1 => BoolOp::Or,
            2 => BoolOp::Xor,
            _ => BoolOp::Not,
        }
    }

    fn number(op: BoolOp) -> u32 {
        op as u32
    }
}

impl Numbered for IntOp {
    ghost of_number = { int_of };

    ghost number = { int_num };

    ghost back = { Prim.search rules };

    fn of(op: u32) -> IntOp {
        match op {
            0 => IntOp::Add,
            1 => IntOp::Sub,
            2 => IntOp::Mul,
            3 => IntOp::Div,
            4 => IntOp::Rem,
            5 => IntOp::Mod,
            _ => IntOp::Pow,
        }
    }

    fn number(op: IntOp) -> u32 {
        op as u32
    }
}

impl Numbered for Width {
    ghost of_number = { width_of };

    ghost number = { width_num };

    ghost back = { Prim.search rules };

    fn of(op: u32) -> Width {
        match op {
            0 => Width::B1,
            1 => Width::B4,
            2 => Width::B8,
            _ => Width::Sig,
        }
    }

    fn number(op: Width) -> u32 {
        op as u32
    }
}

impl Numbered for CheckKind {
    ghost of_number = { check_of };

    ghost number = { check_num };

    ghost back = { Prim.search rules };

    fn of(op: u32) -> CheckKind {
        match op {
            0 => CheckKind::Range,
            1 => CheckKind::Index,
            2 => CheckKind::IndexDown,
            3 => CheckKind::Length,
            _ => CheckKind::Null,
        }
    }

    fn number(op: CheckKind) -> u32 {
        op as u32
    }
}

impl Numbered for RegTy {
    ghost of_number = { reg_ty_of };

    ghost number = { reg_ty_num };

    ghost back = { Prim.search rules };

    fn of(op: u32) -> RegTy {
        match op {
            0 => RegTy::I64,
            1 => RegTy::F64,
            2 => RegTy::Ptr,
            3 => RegTy::Sig,
            _ => RegTy::Handle,
        }
    }

    fn number(op: RegTy) -> u32 {
        op as u32
    }
}

// What stands in a record as two numbers: an op, and the number that goes with it, 0 if there is none.
pub trait Paired: Sized {
    ghost of_numbers: { ℕ → ℕ → Self };

    ghost number: { Self → ℕ };

    ghost argument: { Self → ℕ };

    ghost in_range: { Self → Bool };

    fn of_two(op: u32, n: u32) -> Self
        ensures { result ≡ of_numbers op n };

    fn number(self) -> u32
        ensures { result ≡ number self };

    fn argument(self) -> u32
        ensures { result ≡ argument self };

    ghost back: { (x : Self) → in_range x ≡ true → of_numbers (number x) (argument x) ≡ x };
}

// The number of an Up is taken modulo 256.
impl Paired for AddrSpace {
    ghost of_numbers = { space_of };

    ghost number = { space_num };

    ghost argument = { space_arg };

    ghost in_range = { space_in_range };

    ghost back = { λ x h. Prim.search rules };

    fn of_two(op: u32, n: u32) -> AddrSpace {
        match op {
            0 => AddrSpace::Frame,
            // A cast alone isn't proved to be the byte.
            1 => AddrSpace::Up((n % 256) as u8),
            2 => AddrSpace::Inst,
            3 => AddrSpace::Pkg(n),
            4 => AddrSpace::Const(n),
            _ => AddrSpace::Shared,
        }
    }

    fn number(self) -> u32 {
        match self {
            AddrSpace::Frame => 0,
            AddrSpace::Up(_) => 1,
            AddrSpace::Inst => 2,
            AddrSpace::Pkg(_) => 3,
            AddrSpace::Const(_) => 4,
            AddrSpace::Shared => 5,
        }
    }

    fn argument(self) -> u32 {
        match self {
            AddrSpace::Up(n) => u32::from(n),
            AddrSpace::Pkg(n) | AddrSpace::Const(n) => n,
            AddrSpace::Frame | AddrSpace::Inst | AddrSpace::Shared => 0,
        }
    }
}

impl Paired for Option<Reg> {
    ghost of_numbers = { opt_of };

    ghost number = { opt_num };

    ghost argument = { opt_arg };

    ghost in_range = { λ _. true };

    ghost back = { λ x h. Prim.search rules };

    fn of_two(op: u32, n: u32) -> Option<Reg> {
        if op == 0 { None } else { Some(Reg(n)) }
    }

    fn number(self) -> u32 {
        u32::from(self.is_some())
    }

    fn argument(self) -> u32 {
        self.map_or(0, |r| r.0)
    }
}
