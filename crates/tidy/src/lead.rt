ghost use Rattle.std.specs.Prelude.{◌≡◌, false, ◌<◌, length, get_or};
ghost use Rattle.paths.specs.Paths.{reached_from};
ghost use Rattle.tidy.specs.Work.Marks.{edges_in, leading};

use crate::targets::Targets;
use inst::BlockId;
use search::Search;
use std::marker::Model;

// A block, and the marks of the blocks that it leads to: they are made once, when first needed, and are an array of 160 marks,
// as Search gives them: document 01's form.
#[derive(Drop)]
pub struct Lead<'a> {
    targets: &'a [Targets; 160],
    block: BlockId,
    marks: Option<[bool; 160]>,
}

impl<'a> Model for Lead<'a> {
    ghost use Rattle.tidy.specs.Work.Marks.{edges_in, Leading, leading, Kept};

    ghost Value = { Leading };

    ghost view = { λ s. leading (edges_in s.targets.now) s.block.0 };

    ghost invariant = { λ s. Kept s.targets.now s.block.0 s.marks };
}

// The marks of a block and the blocks that it leads to.
fn reach(targets: &[Targets; 160], from: BlockId) -> [bool; 160]
    requires { (from.0 < 160) × (length targets.now ≡ 160) }
    ensures { result ≡ reached_from (edges_in targets.now) from.0 }
{
    let mut s = Search::new(160);
    s.push(from);
    while let Some(b) = s.pop() {
        let t = targets[b.0 as usize];
        s.push(t.one);
        s.push(t.two);
    }
    *s.marks()
}

impl<'a> Lead<'a> {
    pub fn new(targets: &'a [Targets; 160], block: BlockId) -> Lead<'a>
        requires { (block.0 < 160) × (length targets.now ≡ 160) }
        ensures { result ≡ leading (edges_in targets.now) block.0 }
    {
        Lead {
            targets,
            block,
            marks: None,
        }
    }

    pub fn block(&self) -> BlockId
        ensures { result.0 ≡ self.now.block }
    {
        self.block
    }

    // Whether the block leads to another.
    pub fn leads(&mut self, to: BlockId) -> bool
        ensures kept { self.new ≡ self.old }
        ensures value { result ≡ get_or self.old.marks to.0 false }
    {
        let t = to.0 as usize;
        if let Some(m) = &self.marks {
            return t < 160 && m[t];
        }
        let m = reach(self.targets, self.block);
        self.marks = Some(m);
        t < 160 && m[t]
    }
}
