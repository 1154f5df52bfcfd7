// Document 01's Read: a file is accepted, or refused with number and record.
#![tactic(auto)]

ghost use Rattle.std.specs.Prelude.{◌≡◌, ◌||◌, ℕ, ◌-◌, ◌≤◌, ltb, eqb, length};
ghost use Rattle.records.specs.Record.{records_of};
ghost use Rattle.read.specs.Reading.{answer, beyond as beyondLimits, read_tables, read_blocks, read_records, checked, reading};
ghost use Rattle.read.specs.Refusal.{number_of, reading_of};
ghost use Rattle.read.specs.Work.{told};

use file::File;
use layout::Layout;
use record_rules::exist::Counts;

mod arms;
mod blocks;
mod file;
mod names;
mod span;

// Why a file is refused. Read gives the first seven, Shorten the next two, and Shorten for an account the last.
#[derive(Clone, Copy, Debug, PartialEq, Eq)]
pub enum Reason {
    Length = 1,
    Record = 2,
    Limit = 3,
    Tiling = 4,
    Terminator = 5,
    Table = 6,
    Name = 7,
    ShorteningLimit = 8,
    Output = 9,
    Ceiling = 10,
}

// Its number in document 01.
impl From<Reason> for u32 {
    ghost from_gives = { λ r n. n ≡ number_of r };

    fn from(reason: Reason) -> u32 {
        reason as u32
    }
}

// A refusal: why, and the offending record. Where none is at fault the place is 0, as document 01 and the C struct tell it: an Option
// would be made into that 0 again by each reader but one.
#[derive(Clone, Copy, Debug, PartialEq, Eq)]
pub struct Refusal {
    pub reason: Reason,
    pub place: u32,
}

fn refused(reason: Reason, place: usize) -> Refusal
    requires { place ≤ 2048 }
    ensures { told result ≡ answer (number_of reason) place }
{
    Refusal {
        reason,
        place: place as u32,
    }
}

// Whether a class is beyond its limit, or there is no block.
fn beyond(l: Layout) -> bool
    requires { (l.blocks ≤ l.bodies) × (l.bodies ≤ l.code) × (l.code ≤ l.operands) × (l.operands ≤ l.arms) × (l.arms ≤ l.end) }
    ensures { result ≡ beyondLimits l.blocks (l.bodies - l.blocks) (l.code - l.bodies) (l.operands - l.code) (l.arms - l.operands) (l.end - l.arms) }
{
    let blocks = l.bodies - l.blocks;
    756 < l.blocks
        || 160 < blocks
        || blocks == 0
        || 1 < l.code - l.bodies
        || 756 < l.operands - l.code
        || 128 < l.arms - l.operands
        || 128 < l.end - l.arms
}

// Conditions 6 and 7.
fn read_tables(f: File) -> Result<(), Refusal>
    ensures { reading_of result ≡ read_tables (records_of f.entry.b.now) }
{
    let tables = arms::numbered_arms(f.arms())?;
    let l = f.l;
    let counts = Counts {
        registers: l.blocks as u32,
        blocks: (l.bodies - l.blocks) as u32,
        tables,
        operands: (l.arms - l.operands) as u32,
    };
    names::named_records(f, counts)
}

// Conditions 4 and 5, and those after them.
fn read_blocks(f: File) -> Result<(), Refusal>
    ensures { reading_of result ≡ read_blocks (records_of f.entry.b.now) }
{
    let heads = f.heads();
    let code = f.code();
    blocks::tiled_blocks(heads, code.count as u32)?;
    blocks::ended_blocks(heads, code)?;
    read_tables(f)
}

// Conditions 2 and 3, and those after them.
fn read_records(b: &[u8]) -> Result<(), Refusal>
    requires { length (records_of b.now) ≤ 2048 }
    ensures { reading_of result ≡ read_records (records_of b.now) }
{
    let l = layout::layout_of(b);
    if l.end < b.len() / 32 {
        return Err(refused(Reason::Record, l.end));
    }
    if beyond(l) {
        return Err(refused(Reason::Limit, 0));
    }
    read_blocks(File { b, l })
}

// Asks the seven conditions of a file. Beside `read`, since request 2.8 gives that one condition more. Both are inlined: a file
// that is refused for its length then takes half the machine instructions.
#[inline(always)]
pub fn check(b: &[u8]) -> Result<(), Refusal>
    ensures { reading_of result ≡ checked b.now }
{
    let length = b.len();
    if length % 32 != 0 {
        return Err(refused(Reason::Length, 0));
    }
    if 65536 < length {
        return Err(refused(Reason::Length, 0));
    }
    read_records(b)
}

// Reads a file: accepted, or refused with number and record.
#[inline(always)]
pub fn read(b: &[u8]) -> Result<(), Refusal>
    ensures { reading_of result ≡ reading b.now }
{
    check(b)
}
