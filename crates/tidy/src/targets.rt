ghost use Rattle.std.specs.Prelude.{◌≡◌, replicate};
ghost use Rattle.records.specs.Record.{records_of};
ghost use Rattle.ends.specs.Ends.{targets as targets_in};
ghost use Rattle.tidy.specs.Work.Marks.{Pair, TargetsIn, nowhere};

use crate::file::File;
use ends::End;
use inst::BlockId;

// The targets of a Br or a CondBr; 160 means none. An Option<BlockId> of each would take 1,280 bytes more of stack, and
// include/halivomue.h promises 8,192; an Option<u8> would fit, but each number would be cut to a byte here, and made a
// BlockId again where the search pushes it.
#[derive(Clone, Copy)]
pub struct Targets {
    pub one: BlockId,
    pub two: BlockId,
}

// No block has this number: Read accepts at most 160.
const NONE: BlockId = BlockId(160);

// No targets.
pub const NOWHERE: Targets = Targets {
    one: NONE,
    two: NONE,
};

fn targets_of(e: End) -> Targets
    ensures { Pair (targets_in e) result }
{
    match e {
        End::Br(to) => Targets { one: to, two: NONE },
        End::CondBr(_, t, f) => Targets { one: t, two: f },
        End::Case(_) | End::Other => NOWHERE,
    }
}

// The targets of all blocks.
pub fn note_targets(f: File, targets: &mut [Targets; 160])
    requires { targets.old ≡ replicate 160 nowhere }
    ensures { TargetsIn (records_of f.entry.b.now) f.entry.l targets.new }
{
    for k in 0..f.blocks() {
        let part = f.part(k);
        let last = records::record_at(f.b, part.first + part.count - 1);
        targets[k] = targets_of(ends::end_in(last));
    }
}
