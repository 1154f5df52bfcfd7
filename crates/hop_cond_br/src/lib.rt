// A hop over a CondBr: it is decided by a known value, or skips a block that tests the same register.
#![tactic(auto)]

ghost use Rattle.std.specs.Prelude.{◌≡◌, ◌&&◌, ◌/◌, eqb, cond, length, option_map};
ghost use Rattle.codec.specs.Codec.{block_of};
ghost use Rattle.procedure.specs.Procedure.{codes_of};
ghost use Rattle.steps.specs.Thread as steps;
ghost use Rattle.steps.specs.Note.{nothing, notes};
ghost use Rattle.facts.specs.Storage.{facts_in};
ghost use Rattle.note.specs.Noted.{enough};
ghost use Rattle.pause.specs.Storage.{body_in};
ghost use Rattle.hop_cond_br.specs.Storage.{turned, arm_in, turn_in, fold_in, tested_in, room_in, turned_in};
ghost use Rattle.hop_cond_br.specs.Kept.{SameRoom};

use blocks::Blocks;
use ends::End;
use inst::{BlockId, Inst, Reg};
use pause::{Facts, Pause};

// A CondBr: the register that it tests, and its arms.
#[derive(Clone, Copy, PartialEq, Eq)]
pub struct CondBr {
    pub c: Reg,
    pub t: BlockId,
    pub f: BlockId,
}

// The words for known values and for copies. That they stay the same slices, as long, is a fact about
// before and after, which no ghost field can hold.
#[derive(Drop)]
pub struct Room<'a> {
    pub known: &'a mut [u64],
    pub copy: &'a mut [u32],
}

// Nothing was written; or the block's last instruction was, and no more hops follow; or it was, and
// the next hop follows.
#[derive(Clone, Copy, Debug, PartialEq, Eq)]
pub enum Turn {
    Stay,
    Last,
    Next,
}

impl CondBr {
    // The arm of a true or of a false register.
    fn arm(self, truth: bool) -> BlockId
        ensures { result ≡ cond truth self.t self.f }
    {
        if truth { self.t } else { self.f }
    }
}

// The arm that a lone CondBr takes if it tests c again; else l.
fn matching(truth: bool, c: Reg, l: BlockId, e: End) -> BlockId
    ensures { result ≡ block_of (steps.matching truth c.0 l.0 e) }
{
    match e {
        End::CondBr(d, t, f) if d == c => CondBr { c, t, f }.arm(truth),
        _ => l,
    }
}

// An arm of b, with its block passed over if it only tests the same register again.
#[tactic(auto, using(crate::proofs::Turns::arm_here, crate::proofs::Turns::arm_pause, crate::proofs::Turns::arm_past))]
fn arm_of(blocks: Blocks, pause: Pause, a: BlockId, b: CondBr, truth: bool) -> BlockId
    ensures { result ≡ block_of
        (arm_in blocks.entry.table.now a.0 blocks.entry.code.now (body_in pause) b.c.0 truth (cond truth b.t b.f).0) }
{
    let l = b.arm(truth);
    if l == a {
        return l;
    }
    if pause::is_pause(pause, l) {
        return l;
    }
    matching(truth, b.c, l, gate::lone_at(blocks, l))
}

// Whether register and arms are all the same.
fn same(b: CondBr, x: CondBr) -> bool
    ensures { result ≡ (eqb x.c.0 b.c.0 && eqb x.t.0 b.t.0 && eqb x.f.0 b.f.0) }
{
    x == b
}

// Rewrites the CondBr b of block a to test d, with the arms that `arm_of` gives.
#[tactic(auto, using(crate::proofs::Turns::all_same, crate::proofs::Turns::one_differs))]
fn rewrite(code: &mut [u8], table: &[u8], pause: Pause, a: BlockId, b: CondBr, d: Reg) -> Turn
    ensures { turned code.new result
        ≡ turn_in table.now a.0 code.old (body_in pause) b.c.0 b.t.0 b.f.0 d.0 }
{
    let r = CondBr { c: d, ..b };
    let blocks = Blocks { code, table };
    let t = arm_of(blocks, pause, a, r, true);
    let f = arm_of(blocks, pause, a, r, false);
    if same(b, CondBr { c: d, t, f }) {
        return Turn::Stay;
    }
    let at = blocks.record(a.0 as usize);
    blocks::rewrite_end(code, at, Inst::CondBr { c: d, t, f });
    Turn::Last
}

// Turns the CondBr b of block a into a Br, by a known value.
#[tactic(auto, using(crate::proofs::Turns::taken))]
fn fold(code: &mut [u8], table: &[u8], a: BlockId, b: CondBr, v: u64) -> Turn
    ensures { turned code.new result ≡ fold_in table.now a.0 code.old v b.t.0 b.f.0 }
{
    let blocks = Blocks { code, table };
    let at = blocks.record(a.0 as usize);
    blocks::rewrite_br(code, at, b.arm(v != 0));
    Turn::Next
}

// What is known of register c after some code: what it copies, and the value of that. None if there
// is no room to note it. The slices come apart, as `notes` takes them.
fn tested(
    code: &[u8],
    known: &mut [u64],
    copy: &mut [u32],
    facts: &[u64],
    c: Reg,
) -> Option<(Reg, Option<u64>)>
    ensures { option_map (λ x. (x.0.0, x.1)) result
        ≡ option_map (tested_in facts.now c.0)
        (cond (enough (length code.now / 32) known.old copy.old)
        (Some (notes (facts_in facts.now None 0) nothing (codes_of code.now)))
        None) }
{
    let k = note::notes(code, known, copy, facts)?;
    let d = k.source_of(c);
    let v = k.value_of(facts, d);
    Some((d, v))
}

// A hop of block a, which ends with b. The slices apart: a struct would hold the table by `&mut`, and it is only read.
#[tactic(auto, using(crate::proofs::Turns::no_value, crate::proofs::Turns::no_room))]
pub fn hop_cond_br(
    code: &mut [u8],
    table: &[u8],
    room: &mut Room,
    facts: &Facts,
    a: BlockId,
    b: CondBr,
) -> Turn
    ensures same_room { SameRoom room.old room.new }
    ensures turned { turned code.new result
        ≡ turned_in table.now a.0 facts.now.table.now (body_in facts.now.pause) code.old
        b.c.0 b.t.0 b.f.0
        (room_in table.now a.0 code.old room.old.known.now room.old.copy.now) }
{
    let blocks = Blocks { code, table };
    let front = blocks::front(blocks.block(a));
    let n = tested(front, room.known, room.copy, facts.table, b.c);
    match n {
        Some((d, v)) => match v {
            Some(x) => fold(code, table, a, b, x),
            None => rewrite(code, table, facts.pause, a, b, d),
        },
        None => Turn::Stay,
    }
}
