ghost use Rattle.std.specs.Prelude.{◌≡◌, ◌+◌, ◌≤◌, ◌<◌, length};
ghost use Rattle.records.specs.Record.{records_of};
ghost use Rattle.tidy.specs.Work.Reads.{judged_in, part_reads, file_reads};

use crate::file::{File, Part};
use crate::lead::Lead;
use crate::reader::Reader;
use crate::targets::Targets;
use crate::writers::Writer;
use inst::Reg;

// A file with what its reads are checked by: the writers of its registers, and the targets of its blocks.
#[derive(Clone, Copy)]
pub struct Reads<'a> {
    pub f: File<'a>,
    pub ws: &'a [Writer],
    pub targets: &'a [Targets; 160],
    ghost registers: { f.l.blocks ≤ length ws.now },
    ghost sized: { length targets.now ≡ 160 },
}

impl<'a> Reads<'a> {
    fn read_block(self, p: Part, lowest: Option<Reg>) -> Option<Reg>
        requires { p.first + p.count ≤ length (records_of self.f.b.now) }
        ensures { result ≡ judged_in self.entry.targets.now self.entry.ws.now self.entry.f.l lowest
            (part_reads self.entry.f.b.now self.entry.f.l p.block.0 p.first p.count) }
    {
        let mut lead = Lead::new(self.targets, p.block);
        let mut reader = Reader {
            reads: self,
            lead: &mut lead,
            place: 0,
            lowest,
        };
        reader.read_part(p);
        reader.lowest
    }

    // Checks all reads: the lowest offending register.
    pub fn read_blocks(self) -> Option<Reg>
        ensures { result ≡ judged_in self.entry.targets.now self.entry.ws.now self.entry.f.l None
            (file_reads self.entry.f.b.now self.entry.f.l) }
    {
        let mut t = None;
        for k in 0..self.f.blocks() {
            t = self.read_block(self.f.part(k), t);
        }
        t
    }
}
