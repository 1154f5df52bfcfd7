// An accepted file, cut into the bytes of its classes.
#![tactic(auto)]

ghost use Rattle.std.specs.Prelude.{◌≡◌};
ghost use Rattle.records.specs.Record.{records_of};
ghost use Rattle.records.specs.Class.{class_number};
ghost use Rattle.parts.specs.Parts.{start_at, starts_in, parts_in};

use layout::Layout;
use records::{Class, part};

// The end of the run of records, from `first` on, whose class comes before `class`.
fn start_of(b: &[u8], first: usize, class: Class) -> usize
    ensures { result ≡ start_at (class_number class) first (records_of b.now) }
{
    let number = u32::from(class);
    layout::run_end(b, first, |r| r.class < number)
}

// Where the classes of a file start, by the classes of its records alone.
pub fn starts(b: &[u8]) -> Layout
    ensures { result ≡ starts_in (records_of b.now) }
{
    let blocks = start_of(b, 0, Class::Block);
    let bodies = start_of(b, blocks, Class::Body);
    let code = start_of(b, bodies, Class::Instruction);
    let operands = start_of(b, code, Class::Operand);
    let arms = start_of(b, operands, Class::Arm);
    Layout {
        blocks,
        bodies,
        code,
        operands,
        arms,
        end: b.len() / 32,
    }
}

// A file's bytes, and where its classes start.
#[derive(Clone, Copy)]
pub struct File<'a> {
    pub bytes: &'a [u8],
    pub layout: Layout,
}

impl<'a> File<'a> {
    // An accepted file.
    pub fn open(bytes: &'a [u8]) -> File<'a>
        ensures bytes { result.bytes.now ≡ bytes.now }
        ensures layout { result.layout ≡ starts_in (records_of bytes.now) }
    {
        File {
            bytes,
            layout: starts(bytes),
        }
    }

    pub fn registers(&self) -> &'a [u8]
        ensures { result.now ≡ (parts_in self.now).registers }
    {
        part(self.bytes, 0, self.layout.blocks)
    }

    pub fn heads(&self) -> &'a [u8]
        ensures { result.now ≡ (parts_in self.now).heads }
    {
        part(self.bytes, self.layout.blocks, self.layout.bodies)
    }

    pub fn body(&self) -> &'a [u8]
        ensures { result.now ≡ (parts_in self.now).body }
    {
        part(self.bytes, self.layout.bodies, self.layout.code)
    }

    pub fn code(&self) -> &'a [u8]
        ensures { result.now ≡ (parts_in self.now).code }
    {
        part(self.bytes, self.layout.code, self.layout.operands)
    }

    pub fn operands(&self) -> &'a [u8]
        ensures { result.now ≡ (parts_in self.now).operands }
    {
        part(self.bytes, self.layout.operands, self.layout.arms)
    }

    pub fn arms(&self) -> &'a [u8]
        ensures { result.now ≡ (parts_in self.now).arms }
    {
        part(self.bytes, self.layout.arms, self.layout.end)
    }
}
