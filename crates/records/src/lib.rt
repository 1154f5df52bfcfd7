// A file's bytes as records of 32 bytes: the record at a place.
#![tactic(auto)]

ghost use Rattle.std.specs.Prelude.{◌≡◌, ℕ, ◌+◌, ◌*◌, ◌≤◌, ◌<◌, length};
ghost use Rattle.records.specs.Record.{word_at, record_in, record_at};
ghost use Rattle.records.specs.Class.{class_at, class_number, empty_record};
ghost use Rattle.records.specs.Part.{part_of};

// The classes of records, with their numbers in a record's first byte.
#[derive(Clone, Copy, Debug, PartialEq, Eq)]
pub enum Class {
    Register = 1,
    Block = 2,
    Body = 3,
    Instruction = 4,
    Operand = 5,
    Arm = 6,
}

// A number that no class has.
#[derive(Clone, Copy, Debug, PartialEq, Eq)]
pub struct NoClass(pub u32);

impl TryFrom<u32> for Class {
    type Error = NoClass;

    ghost try_from_gives = { λ n r. r ≡ class_at n };

    fn try_from(number: u32) -> Result<Class, NoClass> {
        match number {
            1 => Ok(Class::Register),
            2 => Ok(Class::Block),
            3 => Ok(Class::Body),
            4 => Ok(Class::Instruction),
            5 => Ok(Class::Operand),
            6 => Ok(Class::Arm),
            _ => Err(NoClass(number)),
        }
    }
}

impl From<Class> for u32 {
    ghost from_gives = { λ c n. n ≡ class_number c };

    fn from(class: Class) -> u32 {
        class as u32
    }
}

// The kinds of arms. Constants and no enum: a record's kind may be any number, and each place that
// asks compares it with one of these, so an enum would only be turned into its number again.
pub const CASE_ARM: u32 = 0;

pub const DEFAULT_ARM: u32 = 1;

// The fields of a 32-byte record.
#[derive(Clone, Copy, Debug, Default, PartialEq, Eq)]
pub struct Record {
    pub class: u32,
    pub kind: u32,
    pub op: u32,
    pub zero: u32,
    pub stmt: u32,
    pub p1: u32,
    pub p2: u32,
    pub p3: u32,
    pub p4: u32,
    pub p5: u32,
    pub p6: u32,
}

impl Record {
    // A record of a class and a kind, with nothing in its places.
    pub fn empty(class: Class, kind: u32) -> Record
        ensures { result ≡ empty_record (class_number class) kind }
    {
        Record {
            class: u32::from(class),
            kind,
            ..Record::default()
        }
    }
}

// The little-endian word that starts at a byte.
fn word_at(b: &[u8], at: usize) -> u32
    requires { at + 4 ≤ length b.now }
    ensures { result ≡ word_at b.now at }
{
    u32::from_le_bytes([b[at], b[at + 1], b[at + 2], b[at + 3]])
}

// The record that starts at a byte.
fn record_in(b: &[u8], at: usize) -> Record
    requires { at + 32 ≤ length b.now }
    ensures { result ≡ record_in b.now at }
{
    Record {
        class: u32::from(b[at]),
        kind: u32::from(b[at + 1]),
        op: u32::from(b[at + 2]),
        zero: u32::from(b[at + 3]),
        stmt: word_at(b, at + 4),
        p1: word_at(b, at + 8),
        p2: word_at(b, at + 12),
        p3: word_at(b, at + 16),
        p4: word_at(b, at + 20),
        p5: word_at(b, at + 24),
        p6: word_at(b, at + 28),
    }
}

// Record k of a file; past the last whole record, a blank one, as the definitions have it. By an Option each caller would put that
// record in again.
pub fn record_at(b: &[u8], k: usize) -> Record
    ensures { result ≡ record_at b.now k }
{
    if k < b.len() / 32 {
        record_in(b, 32 * k)
    } else {
        Record::default()
    }
}

// The bytes of the records from `first` to `end`, as far as they exist.
pub fn part<'a>(b: &'a [u8], first: usize, end: usize) -> &'a [u8]
    ensures { result.now ≡ part_of b.now first end }
{
    let e = end.min(b.len() / 32);
    let s = first.min(e);
    &b[32 * s..32 * e]
}
