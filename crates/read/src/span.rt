ghost use Rattle.std.specs.Prelude.{◌≡◌, ◌+◌, ◌≤◌, ◌<◌, length};
ghost use Rattle.records.specs.Record.{records_of, record_at};
ghost use Rattle.read.specs.Reading.{answer};
ghost use Rattle.read.specs.Refusal.{number_of};
ghost use Rattle.read.specs.Work.{told};

use crate::{Reason, Refusal};
use records::Record;

// Records of a file that stand together: where they start, and how many there are.
#[derive(Clone, Copy)]
pub struct Span<'a> {
    pub b: &'a [u8],
    pub first: usize,
    pub count: usize,
    ghost within: { first + count ≤ length (records_of b.now) },
    ghost few: { length (records_of b.now) ≤ 2048 },
}

impl<'a> Span<'a> {
    // Record k of them.
    pub fn at(self, k: usize) -> Record
        requires { k < self.count }
        ensures { result ≡ record_at self.entry.b.now (self.entry.first + k) }
    {
        records::record_at(self.b, self.first + k)
    }

    // Refuses the file for record k of them.
    pub fn refused(self, reason: Reason, k: usize) -> Refusal
        requires { k < self.count }
        ensures { told result ≡ answer (number_of reason) (self.entry.first + k) }
    {
        crate::refused(reason, self.first + k)
    }
}
