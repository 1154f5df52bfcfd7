// Which blocks Emit reaches from block 0.
#![tactic(auto)]

ghost use Rattle.std.specs.Prelude.{◌≡◌};
ghost use Rattle.records.specs.Record.{records_of};
ghost use Rattle.reach.specs.Reached.{targets_in, leads_in, seen_in};
ghost use Rattle.search.specs.Search.{with_blocks};

use blocks::Blocks;
use ends::End;
use inst::BlockId;
use search::Search;

// Pushes the targets of the arms of table n, up to its default.
#[tactic(auto, using(crate::proofs::Arms::other_arm, crate::proofs::Arms::case_arm, crate::proofs::Arms::default_arm, crate::proofs::Arms::no_arm))]
fn push_arms(s: &mut Search, arms: &[u8], n: u32)
    ensures { s.new ≡ with_blocks s.old (targets_in n (records_of arms.now)) }
{
    for k in 0..arms.len() / 32 {
        let x = items::arm_of(records::record_at(arms, k));
        if x.table == n {
            s.push(x.to);
            if x.default {
                return;
            }
        }
    }
}

// Pushes the blocks that an end leads to.
#[tactic(auto, unfolding(search::specs::Search::pushed_all))]
fn push_targets(s: &mut Search, arms: &[u8], e: End)
    ensures { s.new ≡ with_blocks s.old (leads_in (records_of arms.now) e) }
{
    match e {
        End::Br(to) => s.push(to),
        End::CondBr(_, t, f) => {
            s.push(t);
            s.push(f);
        }
        End::Case(n) => push_arms(s, arms, n),
        End::Other => {}
    }
}

// Which of the first 160 blocks are reached from block 0, over Br, CondBr and arms: document 01 has an array of 160 marks.
pub fn reached(blocks: Blocks, arms: &[u8]) -> [bool; 160]
    ensures { result ≡ seen_in blocks.entry.code.now blocks.entry.table.now arms.now }
{
    let mut s = Search::new(blocks.len());
    s.push(BlockId(0));
    while let Some(b) = s.pop() {
        push_targets(&mut s, arms, blocks.end_at(b.0 as usize));
    }
    *s.marks()
}
