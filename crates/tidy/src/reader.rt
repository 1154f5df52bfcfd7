ghost use Rattle.std.specs.Prelude.{◌≡◌, ◌+◌, ◌≤◌, length};
ghost use Rattle.records.specs.Record.{records_of};
ghost use Rattle.roles.specs.Roles.{numbers_of, operands_of};
ghost use Rattle.tidy.specs.Work.Parts.{operands_in};
ghost use Rattle.tidy.specs.Work.Marks.{edges_in, leading};
ghost use Rattle.tidy.specs.Work.Writers.{WrittenBy, held};
ghost use Rattle.tidy.specs.Work.Reads.{judged, judged_entry, judged_in, part_reads, lower as lowerBy};
ghost use Rattle.tidy.specs.Work.Reader.{read, read_all, reads_at};

use crate::file::Part;
use crate::lead::Lead;
use crate::reads::Reads;
use crate::writers::Writer;
use inst::{BlockId, Reg, Regs};

// The lower of the lowest offending register so far and r.
#[tactic(auto, unfolding(crate::specs::Work::Reads::lower))]
fn lower(lowest: Option<Reg>, r: Reg) -> Reg
    ensures { result.0 ≡ lowerBy lowest r.0 }
{
    match lowest {
        Some(s) => s.min(r),
        None => r,
    }
}

// The reads of a block, checked one by one: what they are checked by, the block with those that it leads to, the place of the
// instruction, and the lowest offending register so far.
#[derive(Drop)]
pub struct Reader<'a, 'b> {
    pub reads: Reads<'a>,
    pub lead: &'b mut Lead<'a>,
    pub place: u32,
    pub lowest: Option<Reg>,
}

impl<'a, 'b> Reader<'a, 'b> {
    // Whether a read of a register with these writers is wrong.
    fn wrong(&mut self, w: Writer) -> bool
        ensures kept { self.new ≡ self.old }
        ensures value { result ≡ judged_entry self.old.lead.now w self.old.place }
        ensures judged { (v : WrittenBy) → w ≡ held v → result ≡ judged self.old.lead.now v self.old.place }
    {
        let here = self.lead.block();
        match w {
            Writer::Nothing | Writer::Free => false,
            Writer::Address {
                block,
                place: written,
            } => {
                let from = BlockId(block as u32);
                if here == from {
                    self.place < written as u32
                } else {
                    self.lead.leads(from)
                }
            }
            Writer::Other {
                block,
                place: written,
            } => here != BlockId(block as u32) || self.place <= written as u32,
        }
    }

    // One read of r.
    fn read_one(&mut self, r: Reg)
        ensures { self.new ≡ read self.old r.0 }
    {
        let k = r.0 as usize;
        if self.reads.f.l.blocks <= k {
            return;
        }
        let w = self.reads.ws[k];
        if self.wrong(w) {
            self.lowest = Some(lower(self.lowest, r));
        }
    }

    // The reads of register fields.
    fn read_fields(&mut self, fields: &[Reg])
        ensures { self.new ≡ read_all self.old (numbers_of fields.now) }
    {
        for r in fields {
            self.read_one(*r);
        }
    }

    // The reads of a list of operands.
    fn read_list(&mut self, list: Regs)
        ensures { self.new ≡ read_all self.old (operands_of (operands_in (records_of self.old.reads.f.b.now) self.old.reads.f.l) list) }
    {
        let f = self.reads.f;
        let start = f.l.operands + list.start as usize;
        let end = usize::min(start + list.len as usize, f.l.arms);
        for k in start..end {
            self.read_one(Reg(records::record_at(f.b, k).p1));
        }
    }

    // The reads of instruction k of the file.
    fn read_inst(&mut self, k: usize)
        ensures { self.new ≡ read_all self.old (reads_at self.old.reads k) }
    {
        let roles = roles::roles_of(ends::inst_at(self.reads.f.b, k));
        self.read_fields(roles.read());
        self.read_list(roles.list());
    }

    // The reads of the block's instructions.
    pub fn read_part(&mut self, p: Part)
        requires leading { self.old.lead.now ≡ leading (edges_in self.old.reads.targets.now) self.old.lead.now.block }
        requires within { p.first + p.count ≤ length (records_of self.old.reads.f.b.now) }
        ensures { self.new.lowest ≡ judged_in self.old.reads.targets.now self.old.reads.ws.now self.old.reads.f.l self.old.lowest
            (part_reads self.old.reads.f.b.now self.old.reads.f.l self.old.lead.now.block p.first p.count) }
    {
        for k in 0..p.count {
            self.place = k as u32;
            self.read_inst(p.first + k);
        }
    }
}
