ghost use Rattle.std.specs.Prelude.{◌≡◌, ◌+◌, ◌-◌, ◌≤◌, ◌<◌, length};
ghost use Rattle.records.specs.Record.{records_of};
ghost use Rattle.read.specs.Work.{LaidOut};
ghost use Rattle.tidy.specs.Work.Parts.{Fit, BlockPart};

use inst::BlockId;
use layout::Layout;

// A file that Read has accepted. Not `parts::File`, which is of any bytes: the ghost fields say what Read has made sure of.
#[derive(Clone, Copy)]
pub struct File<'a> {
    pub b: &'a [u8],
    pub l: Layout,
    ghost laid: { LaidOut (records_of b.now) l },
    ghost fit: { Fit (records_of b.now) l },
}

// The instructions of a block: the block, the record of its first, and how many there are. That they are within the file is no ghost
// field: a Part has no bytes, and with them each function would have to require that they are the file's.
#[derive(Clone, Copy)]
pub struct Part {
    pub block: BlockId,
    pub first: usize,
    pub count: usize,
    ghost low: { block.0 < 160 },
    ghost few: { count ≤ 2048 },
}

impl<'a> File<'a> {
    // How many blocks there are.
    pub fn blocks(self) -> usize
        ensures { result ≡ self.entry.l.bodies - self.entry.l.blocks }
    {
        self.l.bodies - self.l.blocks
    }

    // The instructions of block k.
    pub fn part(self, k: usize) -> Part
        requires { k < self.l.bodies - self.l.blocks }
        ensures number { result.block.0 ≡ k }
        ensures part { BlockPart (records_of self.entry.b.now) self.entry.l k result.first result.count }
    {
        let r = records::record_at(self.b, self.l.blocks + k);
        let start = r.p1 as usize;
        Part {
            block: BlockId(k as u32),
            first: self.l.code + start,
            count: r.p2 as usize - start,
        }
    }
}
