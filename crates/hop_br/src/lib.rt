// A hop over a Br: whether it stays, or is replaced by its target's code.
#![tactic(auto)]

ghost use Rattle.std.specs.Prelude.{◌≡◌, ◌<◌, ◌^◌, false, map, ◌&&◌, ℕ, length, get_or, Option};
ghost use Rattle.procedure.specs.Procedure.{codes_of};
ghost use Rattle.blocks.specs.Blocks.{blocks_in};
ghost use Rattle.steps.specs.Small as small;
ghost use Rattle.steps.specs.Thread as steps;
ghost use Rattle.facts.specs.Storage.{konst_at, kinds_in, facts_in};
ghost use Rattle.pause.specs.Storage.{body_in};
ghost use Rattle.hop_br.specs.Storage.{grown_to, next_in, fresh_to, kinds_put, target_in, given_in, left, join_of};
ghost use Rattle.hop_br.specs.Kept.{SameKinds};
ghost use Rattle.arena.specs.Arena.{arena_in, SameSlices};

use arena::Space;
use blocks::Blocks;
use inst::{BlockId, Reg};
use pause::Facts;

// Whether there is a body and the code reads or writes a register that only one constant writes.
fn binds(code: &[u8], facts: &[u64], wide: bool) -> bool
    ensures { result ≡ (wide && small.reads_konst (konst_at facts.now) (codes_of code.now)) }
{
    wide && reads_konst::reads_konst(code, facts)
}

fn budget_of(facts: &Facts) -> u32
    ensures { result ≡ facts.now.budget }
{
    facts.budget
}

// Whether a Br of block a to block l stays: l is a or the body, `binds` holds, enough was copied,
// or l can't be copied.
#[tactic(auto, using(crate::proofs::Laws::stop_self, crate::proofs::Laws::stop_body, crate::proofs::Laws::stop_konst, crate::proofs::Laws::stop_grown, crate::proofs::Laws::stop_last))]
pub fn stops(blocks: Blocks, facts: &Facts, grown: u64, a: BlockId, l: BlockId) -> bool
    ensures stops { result ≡ steps.stops (facts_in facts.now.table.now (body_in facts.now.pause) facts.now.budget)
        (grown_to (blocks_in blocks.entry) grown) a.0 l.0 }
    ensures few { result ≡ false → grown < 2 ^ 32 }
{
    if l == a {
        return true;
    }
    if pause::is_pause(facts.pause, l) {
        return true;
    }
    let wide = pause::has_pause(facts.pause);
    if binds(blocks.block(l), facts.table, wide) {
        return true;
    }
    let budget = budget_of(facts);
    if (budget as u64) < grown {
        return true;
    }
    !gate::copied(blocks, l, wide)
}

// What threading adds: the new registers' kinds and how many were given, how many instructions were
// appended by copying, and whether a block was edited. The flag is no Option of the counts: a hop
// over a CondBr edits a block and adds nothing. `fresh` is no length of `kinds`: it counts on where
// `kinds` has no room. That `kinds` stays the same slice is a fact about before and after, which no
// ghost field can hold.
#[derive(Drop)]
pub struct Added<'a> {
    pub kinds: &'a mut [u8],
    pub fresh: usize,
    pub grown: u64,
    pub edited: bool,
}

// A register's kind; 0 for a register that the file doesn't have.
fn kind_at(facts: &[u64], r: Reg) -> u8
    ensures { result ≡ get_or (kinds_in facts.now) r.0 0 }
{
    facts::kind_of(facts, r).unwrap_or(0)
}

// Writes the kinds of some old registers from a place on, as far as there is room.
fn put_kinds(kinds: &mut [u8], facts: &[u64], given: &[(Reg, Reg)], from: usize)
    ensures { kinds.new ≡ kinds_put kinds.old from
        (map (λ (d : ℕ). get_or (kinds_in facts.now) d 0) (map (λ x. x.0.0) given.now)) }
{
    for (p, at) in given.iter().zip(from..kinds.len()) {
        kinds[at] = kind_at(facts, p.0);
    }
}

impl Added<'_> {
    // The number of the next new register.
    fn next(&self, facts: &[u64]) -> Reg
        ensures { result.0 ≡ next_in facts.now self.now.fresh }
    {
        Reg(
            facts::registers(facts)
                .saturating_add(self.fresh)
                .min(65535) as u32,
        )
    }

    // Gives new registers, with the kinds of the old ones. 65535 at most are given.
    fn give(&mut self, facts: &[u64], given: &[(Reg, Reg)])
        ensures same { SameKinds self.old self.new }
        ensures kinds { self.new.kinds.now ≡ kinds_put self.old.kinds.now self.old.fresh
            (map (λ (d : ℕ). get_or (kinds_in facts.now) d 0) (map (λ x. x.0.0) given.now)) }
        ensures fresh { self.new.fresh ≡ fresh_to self.old.fresh (length given.now) }
        ensures rest { (self.new.grown ≡ self.old.grown) × (self.new.edited ≡ self.old.edited) }
    {
        put_kinds(self.kinds, facts, given, self.fresh);
        self.fresh = self.fresh.saturating_add(given.len()).min(65535);
    }
}

// How many instructions a join added, and how many new registers it gave. `Added` has the total of
// the registers, 65535 at most.
#[derive(Clone, Copy)]
pub struct Joined {
    pub n: usize,
    pub fresh: usize,
}

// Replaces the Br at the end of block a by the code of block l.
pub fn join(space: &mut Space, added: &mut Added, facts: &[u64], a: BlockId, l: BlockId) -> Joined
    ensures same { SameSlices space.old space.new }
    ensures same_kinds { SameKinds added.old added.new }
    ensures rest { (added.new.grown ≡ added.old.grown) × (added.new.edited ≡ added.old.edited) }
    ensures joined { (body : Option ℕ) (budget : ℕ)
        → left (arena_in space.new) added.new.kinds.now result.n added.new.fresh
        ≡ join_of facts.now body budget a.0 l.0 added.old.fresh (arena_in space.old) added.old.kinds.now }
    ensures given { (body : Option ℕ) (budget : ℕ)
        → result.fresh ≡ length (given_in facts.now body budget (target_in (arena_in space.old) l.0)) }
{
    let m = added.next(facts);
    let blocks = space.blocks();
    let z = copy::copy_of(blocks.block(l), facts, m);
    added.give(facts, z.given());
    space.to_end(a);
    space.pop(a);
    space.append(a, z.code());
    Joined {
        n: z.n,
        fresh: z.fresh,
    }
}
