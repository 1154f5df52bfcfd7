// Where the classes of a file start, found in one walk that stops at the first wrong record.
#![tactic(auto)]

ghost use Rattle.std.specs.Prelude.{◌≡◌, ◌&&◌, ◌+◌, ◌≤◌, Bool, eqb, length, drop};
ghost use Rattle.records.specs.declared.Record.{Record};
ghost use Rattle.records.specs.Record.{records_of};
ghost use Rattle.records.specs.Class.{class_number};
ghost use Rattle.layout.specs.Walk.{lead};
ghost use Rattle.layout.specs.Classes.{layout_of};
ghost use Rattle.layout.specs.Work.{right_of};

use records::{Class, Record};

// Where the records of each class from 2 on start in a file, and where the last end. Registers
// start at 0.
#[derive(Clone, Copy, Debug, Default, PartialEq, Eq)]
pub struct Layout {
    pub blocks: usize,
    pub bodies: usize,
    pub code: usize,
    pub operands: usize,
    pub arms: usize,
    pub end: usize,
}

// The end of the run of records, from `first` on, that pass a test. The loop counts up to the number of records: as a chain of
// iterators it asked once more at each record whether it is there, 3 of its 9 machine instructions.
pub fn run_end<F: Fn(Record) -> bool>(b: &[u8], first: usize, passes: F) -> usize
    requires { F.IsAlwaysCallable passes }
    ensures { (p : Record → Bool) → ((r : Record) (t : Bool) → F.post passes r t → t ≡ p r)
        → result ≡ first + lead p (drop first (records_of b.now)) }
{
    let n = b.len() / 32;
    for k in first..n {
        if !passes(records::record_at(b, k)) {
            return k;
        }
    }
    usize::max(first, n)
}

// Whether the record is of the class and valid by itself.
fn right_of(class: Class, r: Record) -> bool
    ensures { result ≡ right_of (class_number class) r }
{
    r.class == u32::from(class) && record_rules::fit::right(r)
}

// The end of the run of valid records of one class that starts at `first`.
fn span(b: &[u8], first: usize, class: Class) -> usize
    requires { first ≤ length (records_of b.now) }
    ensures value { result ≡ first + lead (right_of (class_number class)) (drop first (records_of b.now)) }
    ensures within { result ≤ length (records_of b.now) }
{
    run_end(b, first, |r| right_of(class, r))
}

pub fn layout_of(b: &[u8]) -> Layout
    ensures { result ≡ layout_of (records_of b.now) }
{
    let blocks = span(b, 0, Class::Register);
    let bodies = span(b, blocks, Class::Block);
    let code = span(b, bodies, Class::Body);
    let operands = span(b, code, Class::Instruction);
    let arms = span(b, operands, Class::Operand);
    let end = span(b, arms, Class::Arm);
    if end == b.len() / 32 {
        Layout {
            blocks,
            bodies,
            code,
            operands,
            arms,
            end,
        }
    } else {
        // No Option: it could not fail before, and where the zeros stand Read asks only for the end.
        Layout {
            end,
            ..Layout::default()
        }
    }
}
