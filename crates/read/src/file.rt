ghost use Rattle.std.specs.Prelude.{◌≤◌, length};
ghost use Rattle.records.specs.Record.{records_of};
ghost use Rattle.read.specs.Work.{LaidOut};
ghost use Rattle.read.specs.Spans.{OfClass};

use crate::span::Span;
use layout::Layout;

// A file whose records are valid, in order and few enough, and where its classes start.
#[derive(Clone, Copy)]
pub struct File<'a> {
    pub b: &'a [u8],
    pub l: Layout,
    ghost laid: { LaidOut (records_of b.now) l },
    ghost few: { length (records_of b.now) ≤ 2048 },
}

impl<'a> File<'a> {
    // The records of the blocks.
    pub fn heads(self) -> Span<'a>
        ensures { OfClass 2 (records_of self.entry.b.now) result }
    {
        Span {
            b: self.b,
            first: self.l.blocks,
            count: self.l.bodies - self.l.blocks,
        }
    }

    // The instructions.
    pub fn code(self) -> Span<'a>
        ensures { OfClass 4 (records_of self.entry.b.now) result }
    {
        Span {
            b: self.b,
            first: self.l.code,
            count: self.l.operands - self.l.code,
        }
    }

    pub fn arms(self) -> Span<'a>
        ensures { OfClass 6 (records_of self.entry.b.now) result }
    {
        Span {
            b: self.b,
            first: self.l.arms,
            count: self.l.end - self.l.arms,
        }
    }
}
