ghost use Rattle.std.specs.Prelude.{◌≡◌, [], ◌<◌, eqb, get_or};
ghost use Rattle.records.specs.Kinds.{fields, instruction_places, arm_places};
ghost use Rattle.record_rules.specs.Exist.{all_exist, names_exist};
ghost use Rattle.record_rules.specs.Work.{limits_at, limits_of, asked, asked_exists};

use records::{Class, DEFAULT_ARM, Record};

// How many registers, blocks, tables and operands there are: what a record may name.
#[derive(Clone, Copy)]
pub struct Counts {
    pub registers: u32,
    pub blocks: u32,
    pub tables: u32,
    pub operands: u32,
}

// More than any field, or than two of them together.
const ANY: u64 = 0x2_0000_0000;

// What each kind asks of p1 to p5, and of p2 plus p3: which of the limits of `bounds` it is below.
const ASKED: [[u8; 6]; 24] = [
    [1, 0, 0, 0, 0, 0], // Const
    [1, 0, 0, 0, 0, 0], // ConstF
    [1, 1, 0, 0, 0, 0], // Move
    [1, 0, 0, 0, 0, 0], // AddrOf
    [1, 1, 1, 1, 0, 0], // Select
    [1, 1, 1, 0, 0, 0], // Cmp
    [1, 1, 1, 0, 0, 0], // Bool
    [1, 1, 1, 0, 0, 0], // Bin
    [1, 1, 1, 1, 1, 0], // BinRange
    [1, 1, 0, 0, 0, 0], // Load
    [1, 1, 0, 0, 0, 0], // Store
    [1, 1, 1, 0, 0, 0], // Check
    [1, 0, 0, 0, 0, 5], // MakeDope
    [1, 1, 0, 0, 0, 0], // DopeLen
    [1, 1, 1, 1, 0, 0], // BoundsLen
    [1, 1, 0, 0, 0, 0], // Alloc
    [1, 1, 1, 0, 0, 0], // TakeBounds
    [0, 0, 0, 4, 0, 5], // CallNative
    [2, 0, 0, 0, 0, 0], // Br
    [1, 2, 2, 0, 0, 0], // CondBr
    [1, 3, 0, 0, 0, 0], // Case
    [4, 0, 0, 0, 0, 0], // Ret
    [0, 0, 0, 0, 0, 0], // Unreachable
    [0, 0, 0, 0, 0, 0], // Stmt
];

// What a place may be asked to be below: no limit, a count, that of an optional register, a list's end.
fn bounds(n: Counts, optional: u64) -> [u64; 6]
    ensures { result ≡ limits_at n optional }
{
    [
        ANY,
        u64::from(n.registers),
        u64::from(n.blocks),
        u64::from(n.tables),
        optional,
        u64::from(n.operands) + 1,
    ]
}

// What the records of a file may name. The limits are made once for all records: for an op that isn't 0, and for op 0, which
// means no register in CallNative and Ret.
#[derive(Clone, Copy)]
pub struct Limits {
    pub counts: Counts,
    most: [[u64; 6]; 2],
    ghost whole: { most ≡ limits_of counts },
}

impl Limits {
    pub fn of(n: Counts) -> Limits
        ensures { result.counts ≡ n }
    {
        Limits {
            counts: n,
            most: [bounds(n, u64::from(n.registers)), bounds(n, ANY)],
        }
    }

    // Whether a value is below the limit that its place asks for.
    fn keeps(&self, kind: u32, op: u32, place: usize, value: u64) -> bool
        requires kind { kind < 24 }
        requires place { place < 6 }
        requires value { value < ANY }
        ensures { result ≡ asked_exists self.now.counts (eqb op 0) (asked kind place) value }
    {
        value < self.most[usize::from(op == 0)][usize::from(ASKED[kind as usize][place])]
    }
}

// By a table, so that no branch depends on the kind or the op: the processor can't predict which comes next in a file.
fn instruction_exist(l: &Limits, r: Record) -> bool
    ensures { result ≡ all_exist l.now.counts (get_or (instruction_places r.op) r.kind []) (fields r) }
{
    if 24 <= r.kind {
        return true;
    }
    l.keeps(r.kind, r.op, 0, u64::from(r.p1))
        & l.keeps(r.kind, r.op, 1, u64::from(r.p2))
        & l.keeps(r.kind, r.op, 2, u64::from(r.p3))
        & l.keeps(r.kind, r.op, 3, u64::from(r.p4))
        & l.keeps(r.kind, r.op, 4, u64::from(r.p5))
        & l.keeps(r.kind, r.op, 5, u64::from(r.p2) + u64::from(r.p3))
}

// An arm or a default.
fn arm_exist(l: &Limits, r: Record) -> bool
    ensures { result ≡ all_exist l.now.counts (get_or arm_places r.kind []) (fields r) }
{
    DEFAULT_ARM < r.kind || r.p6 < l.counts.blocks
}

// Whether everything that the record names exists. Registers and blocks name nothing. Bodies and operands are told by `|`, or
// the compiler makes a jump by class: drawn files of 240 instructions take 1.2 % more machine instructions.
pub fn names_exist(l: &Limits, r: Record) -> bool
    ensures { result ≡ names_exist l.now.counts r }
{
    if r.class == u32::from(Class::Instruction) {
        return instruction_exist(l, r);
    }
    if r.class == u32::from(Class::Arm) {
        return arm_exist(l, r);
    }
    let body = (r.class != u32::from(Class::Body)) | (r.p1 < l.counts.blocks);
    let operand = (r.class != u32::from(Class::Operand)) | (r.p1 < l.counts.registers);
    body & operand
}
