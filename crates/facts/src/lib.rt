// The table of facts about a file's registers: kind, definitions, uses, constant.
#![tactic(auto)]

ghost use Rattle.std.specs.Prelude.{◌≡◌, ◌<◌, length, slice_get};
ghost use Rattle.facts.specs.Storage.{cell, kinds_in, single_in, uses_in, const_at, konst_at};

use inst::Reg;

// A register's row: five words, in this order. The table is words and no structs, since C lends it to the benchmark as words;
// std's `as_chunks_mut` would make rows of them, but promises nothing of what the slice ends as, and for
// reading rows are no plainer, since each function asks one word. What follows are functions of
// the slice, not methods: the benchmark lends a slice and `count_facts` fills it as one, so each caller would wrap it first.
pub const ROW: usize = 5;

pub const KIND: usize = 0;

pub const DEFINITIONS: usize = 1;

pub const USES: usize = 2;

pub const CLASS: usize = 3;

pub const VALUE: usize = 4;

// The classes of a register, whatever else writes it: a Const does, and the first one's v is the row's value, or no Const, but a
// ConstF or a non-Up AddrOf. Any other register has class 0. The class counts only if one field of the code writes the register.
// It is a word of the table: an enum would have to be made from that word at each test, and turned into it at each write.
pub const BY_CONST: u64 = 1;

pub const BY_OTHER: u64 = 2;

// The kinds that are asked for by name. A kind is a byte and no RegTy: a word of the table may be no kind (see NO_KIND), and the
// byte that is read goes into the lent storage for the kinds of new registers.
pub const I64: u8 = 0;

pub const PTR: u8 = 2;

// A word that is no kind is read as this: C lends the table as words (see ROW), so the contracts hold for any words.
const NO_KIND: u64 = 5;

// Word j of a register's row, or 0 if it has no row.
#[tactic(auto, unfolding(crate::specs::Storage::cell))]
fn cell_of(table: &[u64], r: Reg, j: usize) -> u64
    requires { j < 5 }
    ensures { result ≡ cell table.now r.0 j 0 }
{
    let k = r.0 as usize;
    if k < table.len() / ROW {
        return table[ROW * k + j];
    }
    0
}

// How many registers the file has.
pub fn registers(table: &[u64]) -> usize
    ensures { result ≡ length (kinds_in table.now) }
{
    table.len() / ROW
}

// A register's kind, if the file has the register.
pub fn kind_of(table: &[u64], r: Reg) -> Option<u8>
    ensures { result ≡ slice_get (kinds_in table.now) r.0 }
{
    let k = r.0 as usize;
    if registers(table) <= k {
        return None;
    }
    Some(u64::min(table[ROW * k + KIND], NO_KIND) as u8)
}

// Whether exactly one field of the code writes it.
#[tactic(auto, unfolding(crate::specs::Storage::single_in))]
pub fn is_single(table: &[u64], r: Reg) -> bool
    ensures { result ≡ single_in table.now r.0 }
{
    cell_of(table, r, DEFINITIONS) == 1
}

#[tactic(auto, unfolding(crate::specs::Storage::uses_in))]
pub fn uses_of(table: &[u64], r: Reg) -> u64
    ensures { result ≡ uses_in table.now r.0 }
{
    cell_of(table, r, USES)
}

// The Rust's kc: the v of a register that only a Const writes.
#[tactic(auto, unfolding(crate::specs::Storage::const_at))]
pub fn const_of(table: &[u64], r: Reg) -> Option<u64>
    ensures { result ≡ const_at table.now r.0 }
{
    if cell_of(table, r, CLASS) == BY_CONST && is_single(table, r) {
        return Some(cell_of(table, r, VALUE));
    }
    None
}

// The Rust's kdef: whether only one Const, ConstF or non-Up AddrOf writes the register.
#[tactic(auto, unfolding(crate::specs::Storage::konst_at))]
pub fn is_konst(table: &[u64], r: Reg) -> bool
    ensures { result ≡ konst_at table.now r.0 }
{
    cell_of(table, r, CLASS) != 0 && is_single(table, r)
}
