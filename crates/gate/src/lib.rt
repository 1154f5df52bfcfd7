// The gate of threading, `has_back_edge` and `may_thread`, and that of `slice_tests`.
#![tactic(auto)]

ghost use Rattle.std.specs.Prelude.{◌≡◌, [], Bool, false, ℕ, ◌≤◌, leb, get_or, drop};
ghost use Rattle.codec.specs.Codec.{inst_of};
ghost use Rattle.procedure.specs.Procedure.{codes_of};
ghost use Rattle.procedure.specs.Lists.{any_of};
ghost use Rattle.ends.specs.Ends.{end_of, lone_of, targets};
ghost use Rattle.steps.specs.Gate as steps;
ghost use Rattle.steps.specs.Slice.{measure_of, is_made, is_measured, has_lengths};
ghost use Rattle.blocks.specs.Blocks.{blocks_in};

use blocks::Blocks;
use ends::End;
use inst::{BlockId, Kind};
use records::Record;

// The end of block k, if the block holds nothing else.
#[tactic(auto, using(blocks::proofs::Ends::codes_in))]
pub fn lone_at(blocks: Blocks, k: BlockId) -> End
    ensures { result ≡ lone_of (get_or (blocks_in blocks.entry) k.0 []) }
{
    ends::lone_of(blocks.block(k))
}

// Whether it is a Br or CondBr to block b or an earlier one. By numbers: a table of any length may have more blocks than a BlockId
// counts.
#[tactic(auto, unfolding(procedure::specs::Lists::any_of))]
fn goes_back(b: usize, e: End) -> bool
    ensures { result ≡ any_of (λ (t : ℕ). leb t b) (targets e) }
{
    match e {
        End::Br(to) => to.0 as usize <= b,
        End::CondBr(_, t, f) => t.0 as usize <= b || f.0 as usize <= b,
        End::Case(_) | End::Other => false,
    }
}

// Whether some Br or CondBr targets its own or an earlier block.
pub fn has_back_edge(blocks: Blocks) -> bool
    ensures { result ≡ steps.has_back_edge (blocks_in blocks.entry) }
{
    (0..blocks.len()).any(|b| goes_back(b, blocks.end_at(b)))
}

// Whether block k is nothing but a CondBr.
fn lone_cond_br(blocks: Blocks, k: BlockId) -> bool
    ensures { result ≡ steps.is_cond_br (lone_of (get_or (blocks_in blocks.entry) k.0 [])) }
{
    matches!(lone_at(blocks, k), End::CondBr(_, _, _))
}

// Whether block l is small and not a latch.
#[tactic(auto, using(blocks::proofs::Ends::codes_in, crate::proofs::Laws::not_small, crate::proofs::Laws::small_block))]
pub fn copied(blocks: Blocks, l: BlockId, wide: bool) -> bool
    ensures { result ≡ steps.copied wide (blocks_in blocks.entry) l.0 }
{
    let target = blocks.block(l);
    if !small::small(target) {
        return false;
    }
    let next = blocks.record(l.0 as usize + 1);
    !small::latch(target, blocks.block_by(next), l, wide)
}

fn may_hop(blocks: Blocks, a: usize, wide: bool) -> bool
    ensures { result ≡ steps.may_hop wide (blocks_in blocks.entry)
        a (end_of (get_or (blocks_in blocks.entry) a [])) }
{
    match blocks.end_at(a) {
        End::Br(to) => to.0 as usize != a && copied(blocks, to, wide),
        End::CondBr(_, t, f) => lone_cond_br(blocks, t) || lone_cond_br(blocks, f),
        End::Case(_) | End::Other => false,
    }
}

// Cheap pre-check of block a: false implies that `may_hop` is false.
#[tactic(auto, using(blocks::proofs::Ends::codes_in, crate::proofs::Laws::not_small))]
fn could_hop(blocks: Blocks, a: usize) -> bool
    ensures { result ≡ false → (wide : Bool)
        → steps.may_hop wide (blocks_in blocks.entry)
        a (end_of (get_or (blocks_in blocks.entry) a [])) ≡ false }
{
    match blocks.end_at(a) {
        End::Br(to) => small::small(blocks.block(to)) && to.0 as usize != a,
        End::CondBr(_, t, f) => { blocks.is_lone(t) || blocks.is_lone(f) }
        End::Case(_) | End::Other => false,
    }
}

// `may_hop`, after a glance that says no of most blocks.
fn hops(blocks: Blocks, a: usize, wide: bool) -> bool
    ensures { result ≡ steps.may_hop wide (blocks_in blocks.entry)
        a (end_of (get_or (blocks_in blocks.entry) a [])) }
{
    could_hop(blocks, a) && may_hop(blocks, a, wide)
}

// Whether some block has a Br that a copy may replace, or a CondBr with an arm to a lone CondBr.
pub fn may_thread(blocks: Blocks, wide: bool) -> bool
    ensures { result ≡ steps.may_thread wide (blocks_in blocks.entry) }
{
    (0..blocks.len()).any(|a| hops(blocks, a, wide))
}

// Whether a record is a MakeDope or a BoundsLen, which tell the bounds of a length.
#[tactic(auto, using(codec::proofs::Table::inst_by_kind), unfolding(steps::specs::Slice::measure_of))]
fn is_made(r: Record) -> bool
    ensures { result ≡ is_made (measure_of (inst_of r)) }
{
    matches!(Kind::from(r.kind), Kind::MakeDope | Kind::BoundsLen)
}

// Whether a record is a DopeLen or a BoundsLen, which write a length.
#[tactic(auto, using(codec::proofs::Table::inst_by_kind), unfolding(steps::specs::Slice::measure_of))]
fn is_measured(r: Record) -> bool
    ensures { result ≡ is_measured (measure_of (inst_of r)) }
{
    matches!(Kind::from(r.kind), Kind::DopeLen | Kind::BoundsLen)
}

fn any_made(code: &[u8]) -> bool
    ensures { result ≡ any_of (λ x. is_made (measure_of x.inst)) (codes_of code.now) }
{
    (0..code.len() / 32).any(|k| is_made(records::record_at(code, k)))
}

fn any_measured(code: &[u8]) -> bool
    ensures { result ≡ any_of (λ x. is_measured (measure_of x.inst)) (codes_of code.now) }
{
    (0..code.len() / 32).any(|k| is_measured(records::record_at(code, k)))
}

// Whether some instruction tells bounds and some writes a length. Most code tells no bounds, and is searched once.
#[tactic(auto, unfolding(steps::specs::Slice::has_lengths))]
pub fn has_lengths(code: &[u8]) -> bool
    ensures { result ≡ has_lengths (codes_of code.now) }
{
    any_made(code) && any_measured(code)
}
