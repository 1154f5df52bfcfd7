// The equal-arms step: a CondBr whose arms meet becomes a Br.
#![tactic(auto)]

ghost use Rattle.std.specs.Prelude.{◌≡◌, ◌||◌, Bool, true, false};
ghost use Rattle.codec.specs.Codec.{block_of};
ghost use Rattle.steps.specs.EqualArms as steps;
ghost use Rattle.blocks.specs.Blocks.{blocks_in};
ghost use Rattle.equal_arms.specs.Joined.{joined, join_met, join_arms, equal_arms_in};

use blocks::Blocks;
use ends::End;
use inst::BlockId;

// The block that a lone Br of block b leads to, which may be block b itself; else block b.
fn past(b: BlockId, e: End) -> BlockId
    ensures { result ≡ block_of (steps.past b.0 e) }
{
    match e {
        End::Br(to) => to,
        End::CondBr(_, _, _) | End::Case(_) | End::Other => b,
    }
}

// The block that an arm reaches over at most four lone Brs. A call would pass the two slices through memory: 7 % more for `none_meet`.
#[tactic(auto, using(blocks::proofs::Ends::codes_in, crate::proofs::Laws::follow_fixed), unfolding(steps::specs::EqualArms::follow))]
#[inline(always)]
fn follow(blocks: Blocks, b: BlockId) -> BlockId
    ensures { result ≡ block_of (steps.reached_from (blocks_in blocks.entry) b.0) }
{
    let mut at = b;
    for k in 0..4u32 {
        let next = past(at, ends::lone_of(blocks.block(at)));
        if next == at {
            return at;
        }
        at = next;
    }
    at
}

// The block that both arms of block k's CondBr reach, if it is the same one.
#[tactic(auto, unfolding(crate::specs::Joined::join_arms))]
#[inline(always)]
fn meet(blocks: Blocks, k: usize) -> Option<BlockId>
    ensures { (edited : Bool) → join_met blocks.entry.table.now result k (joined blocks.entry.code.now edited)
        ≡ join_arms blocks.entry.table.now k (joined blocks.entry.code.now edited) }
{
    match blocks.end_at(k) {
        End::CondBr(_, t, f) => {
            let to = follow(blocks, t);
            let other = follow(blocks, f);
            if to == other { Some(to) } else { None }
        }
        End::Br(_) | End::Case(_) | End::Other => None,
    }
}

// Joins the arms of block k if both reach the same block; true if they do.
fn join_arms(code: &mut [u8], table: &[u8], k: usize) -> bool
    ensures { (edited : Bool) → joined code.new (edited || result) ≡ join_arms table.now k (joined code.old edited) }
{
    match meet(Blocks { code, table }, k) {
        Some(to) => {
            blocks::rewrite_br(code, records::record_at(table, k), to);
            true
        }
        None => false,
    }
}

// Cheap pre-check of two arms: true implies that they are different blocks and neither leads on
// over a lone Br.
#[tactic(auto, using(crate::proofs::Laws::reached_itself))]
fn lead_apart(blocks: Blocks, t: BlockId, f: BlockId) -> bool
    ensures { result ≡ true → (t.0 ≡ f.0 → ⊥)
        × (steps.reached_from (blocks_in blocks.entry) t.0 ≡ t.0)
        × (steps.reached_from (blocks_in blocks.entry) f.0 ≡ f.0) }
{
    if t == f {
        return false;
    }
    !blocks.is_lone(t) && !blocks.is_lone(f)
}

// Cheap pre-check of block k: true implies that it has no arms, or that they don't meet.
#[tactic(auto, unfolding(crate::specs::Joined::join_arms))]
fn apart(blocks: Blocks, k: usize) -> bool
    ensures { result ≡ true → (edited : Bool)
        → join_arms blocks.entry.table.now k (joined blocks.entry.code.now edited) ≡ joined blocks.entry.code.now edited }
{
    match blocks.end_at(k) {
        End::CondBr(_, t, f) => lead_apart(blocks, t, f),
        End::Br(_) | End::Case(_) | End::Other => true,
    }
}

// Turns each CondBr whose arms reach the same block into a Br to it, in block order; true if there
// was one.
#[tactic(auto, using(crate::proofs::Laws::from_one, crate::proofs::Laws::from_pass), unfolding(crate::specs::Joined::join_from))]
pub fn equal_arms(code: &mut [u8], table: &[u8]) -> bool
    ensures { joined code.new result ≡ equal_arms_in table.now code.old }
{
    let mut edited = false;
    for k in 0..table.len() / 32 {
        if !apart(Blocks { code, table }, k) {
            edited |= join_arms(code, table, k);
        }
    }
    edited
}

// Block k has no arms, or they don't meet: true implies that `equal_arms` would leave it as it is.
fn stays(blocks: Blocks, k: usize) -> bool
    ensures { result ≡ true → (edited : Bool)
        → join_arms blocks.entry.table.now k (joined blocks.entry.code.now edited) ≡ joined blocks.entry.code.now edited }
{
    apart(blocks, k) || meet(blocks, k).is_none()
}

// True implies that no block's arms meet, so `equal_arms` would leave the code as it is.
pub fn none_meet(blocks: Blocks) -> bool
    ensures { result ≡ true → equal_arms_in blocks.entry.table.now blocks.entry.code.now ≡ joined blocks.entry.code.now false }
{
    (0..blocks.len()).all(|k| stays(blocks, k))
}
