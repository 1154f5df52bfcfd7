ghost use Rattle.std.specs.Prelude.{◌≡◌, [], ◌∷◌, cond, ◌<◌, leb, drop, get_or};
ghost use Rattle.records.specs.Kinds.{zeros, fields, all_fit, instruction_places, instruction_ops, arm_places, right as rightRecord};
ghost use Rattle.record_rules.specs.Work.{plain as plainRecord, row_of};

use records::{CASE_ARM, Class, DEFAULT_ARM, Record};

// How many ops each kind has.
const OPS: [u8; 24] = [
    1, 1, 1, 6, 1, 6, 4, 7, 7, 4, 4, 5, 1, 1, 1, 1, 1, 2, 1, 1, 1, 2, 1, 1,
];

// Any number.
const ALL: u32 = u32::MAX;

// The most that each place may hold, by kind, and by op for AddrOf, CallNative and Ret. By a table, as in `exist`, no branch
// depends on the kind or the op.
const MOST: [[u32; 6]; 31] = [
    [ALL, ALL, ALL, 0, 0, 0], // Const
    [ALL, ALL, ALL, 0, 0, 0], // ConstF
    [ALL, ALL, 0, 0, 0, 0], // Move
    [ALL, 0, ALL, 0, 0, 0], // AddrOf Frame
    [ALL, 255, ALL, 0, 0, 0], // AddrOf Up
    [ALL, 0, ALL, 0, 0, 0], // AddrOf Inst
    [ALL, ALL, ALL, 0, 0, 0], // AddrOf Pkg
    [ALL, ALL, ALL, 0, 0, 0], // AddrOf Const
    [ALL, 0, ALL, 0, 0, 0], // AddrOf Shared
    [ALL, ALL, ALL, ALL, 0, 0], // Select
    [ALL, ALL, ALL, 0, 0, 0], // Cmp
    [ALL, ALL, ALL, 0, 0, 0], // Bool
    [ALL, ALL, ALL, 0, 0, 0], // Bin
    [ALL, ALL, ALL, ALL, ALL, ALL], // BinRange
    [ALL, ALL, 0, 0, 0, 0], // Load
    [ALL, ALL, 0, 0, 0, 0], // Store
    [ALL, ALL, ALL, ALL, 0, 0], // Check
    [ALL, ALL, ALL, 0, 0, 0], // MakeDope
    [ALL, ALL, 255, 0, 0, 0], // DopeLen
    [ALL, ALL, ALL, ALL, 0, 0], // BoundsLen
    [ALL, ALL, 0, 0, 0, 0], // Alloc
    [ALL, ALL, ALL, 0, 0, 0], // TakeBounds
    [ALL, ALL, ALL, 0, 0, 0], // CallNative without a register
    [ALL, ALL, ALL, ALL, 0, 0], // CallNative
    [ALL, 0, 0, 0, 0, 0], // Br
    [ALL, ALL, ALL, 0, 0, 0], // CondBr
    [ALL, ALL, 0, 0, 0, 0], // Case
    [0, 0, 0, 0, 0, 0], // Ret without a register
    [ALL, 0, 0, 0, 0, 0], // Ret
    [ALL, 0, 0, 0, 0, 0], // Unreachable
    [0, 0, 0, 0, 0, 0], // Stmt
];

// Each kind's first row there, and the last op that has a row of its own.
const FIRST: [u8; 24] = [
    0, 1, 2, 3, 9, 10, 11, 12, 13, 14, 15, 16, 17, 18, 19, 20, 21, 22, 24, 25, 26, 27, 29, 30,
];

const LAST: [u8; 24] = [
    0, 0, 0, 5, 0, 0, 0, 0, 0, 0, 0, 0, 0, 0, 0, 0, 0, 1, 0, 0, 0, 1, 0, 0,
];

// None past the last kind.
fn ops(kind: u32) -> u32
    ensures { result ≡ instruction_ops kind }
{
    match OPS.get(kind as usize) {
        Some(n) => u32::from(*n),
        None => 0,
    }
}

// The row of a kind and an op.
fn row(kind: u32, op: u32) -> usize
    requires { kind < 24 }
    ensures value { result ≡ row_of kind op }
    ensures within { result < 31 }
{
    let last = u32::from(LAST[kind as usize]);
    usize::from(FIRST[kind as usize]) + op.min(last) as usize
}

// Six words: a record's fields are no array, and one made of them is no plainer.
fn all_zero(a: u32, b: u32, c: u32, d: u32, e: u32, f: u32) -> bool
    ensures { result ≡ zeros (a ∷ b ∷ c ∷ d ∷ e ∷ f ∷ []) }
{
    let first = u64::from(a) + u64::from(b) + u64::from(c);
    first + u64::from(d) + u64::from(e) + u64::from(f) == 0
}

// A field if it isn't among the first `used`, else 0.
fn beyond(used: u32, place: u32, field: u32) -> u32
    ensures { result ≡ cond (leb used place) field 0 }
{
    if used <= place { field } else { 0 }
}

// Whether the fields after the first `used` are zero.
fn blank(used: u32, r: Record) -> bool
    ensures { result ≡ zeros (drop used (fields r)) }
{
    all_zero(
        beyond(used, 0, r.p1),
        beyond(used, 1, r.p2),
        beyond(used, 2, r.p3),
        beyond(used, 3, r.p4),
        beyond(used, 4, r.p5),
        beyond(used, 5, r.p6),
    )
}

// Whether the fields of an instruction fit the places that its kind lists.
fn instruction_fits(r: Record) -> bool
    requires { r.kind < 24 }
    ensures { result ≡ all_fit (get_or (instruction_places r.op) r.kind []) (fields r) }
{
    let most = &MOST[row(r.kind, r.op)];
    (r.p1 <= most[0])
        & (r.p2 <= most[1])
        & (r.p3 <= most[2])
        & (r.p4 <= most[3])
        & (r.p5 <= most[4])
        & (r.p6 <= most[5])
}

fn instruction(r: Record) -> bool
    requires { r.class ≡ 4 }
    ensures { result ≡ rightRecord r }
{
    if ops(r.kind) <= r.op {
        return false;
    }
    if r.zero != 0 {
        return false;
    }
    instruction_fits(r)
}

// Whether the record's kind is below `kinds`, and it has no op and no statement.
fn plain(r: Record, kinds: u32) -> bool
    ensures { result ≡ plainRecord r kinds }
{
    r.kind < kinds && all_zero(r.op, r.zero, r.stmt, 0, 0, 0)
}

fn arm_fits(r: Record) -> bool
    ensures { result ≡ all_fit (get_or arm_places r.kind []) (fields r) }
{
    match r.kind {
        CASE_ARM => true,
        DEFAULT_ARM => all_zero(0, r.p2, r.p3, r.p4, r.p5, 0),
        _ => blank(0, r),
    }
}

// Whether the record is valid by itself.
pub fn right(r: Record) -> bool
    ensures { result ≡ rightRecord r }
{
    match Class::try_from(r.class) {
        Ok(Class::Register) => plain(r, 5) && blank(0, r),
        Ok(Class::Block) => plain(r, 1) && blank(2, r),
        Ok(Class::Body) => plain(r, 1) && blank(1, r),
        Ok(Class::Instruction) => instruction(r),
        Ok(Class::Operand) => plain(r, 1) && blank(1, r),
        Ok(Class::Arm) => plain(r, 2) && arm_fits(r),
        Err(_) => false,
    }
}
