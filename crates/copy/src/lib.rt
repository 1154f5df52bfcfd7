// A target's code copied, with constants left out and registers given new numbers.
#![tactic(auto)]

ghost use Rattle.std.specs.Prelude.{◌≡◌, [], ◌∷◌, ℕ, ◌+◌, ◌≤◌, ◌<◌, min, take, length, Option};
ghost use Rattle.roles.specs.Roles.{uses_of, numbers_of};
ghost use Rattle.procedure.specs.Procedure.{codes_of};
ghost use Rattle.procedure.specs.Lists.{times};
ghost use Rattle.ends.specs.Forms.{fixed_of};
ghost use Rattle.steps.specs.Copy as steps;
ghost use Rattle.facts.specs.Storage.{facts_in, uses_in};
ghost use Rattle.copy.specs.Storage.{how_in, is_const, how_one, first_four, CopyOf};

use inst::{Code, Inst, Reg};

mod copied;

pub use copied::Copied;

// What happens to an instruction in the copy: left out, given a new number for what it writes, or
// kept.
#[derive(Clone, Copy)]
enum How {
    LeftOut,
    Renumbered(Reg),
    Kept,
}

// How often r occurs among some registers.
#[tactic(auto, using(crate::proofs::Laws::reads_counted))]
fn times(regs: &[Reg], r: Reg) -> u64
    ensures { result ≡ times r.0 (numbers_of regs.now) }
{
    regs.iter().filter(|x| r == **x).count() as u64
}

// How often an instruction reads r.
#[tactic(auto, using(crate::proofs::Laws::reads_few))]
fn reads_of(i: Inst, r: Reg) -> u64
    ensures { (result ≡ times r.0 (uses_of i)) × (result ≤ 5) }
{
    times(roles::roles_of(i).read(), r)
}

// Whether it is a Const or ConstF.
#[tactic(auto, unfolding(ends::specs::Forms::fixed_of, ends::specs::Forms::form_of))]
fn is_const(i: Inst) -> bool
    ensures { result ≡ is_const (fixed_of i) }
{
    matches!(i, Inst::Const { .. } | Inst::ConstF { .. })
}

// The code of a target, and the table of facts.
#[derive(Clone, Copy)]
struct Target<'a> {
    code: &'a [Code],
    facts: &'a [u64],
    ghost few: { length code.now ≤ 4 },
}

impl<'a> Target<'a> {
    // The reads of a register in the target.
    fn own_uses(self, r: Reg) -> u64
        ensures { result ≡ steps.own_uses self.entry.code.now r.0 }
    {
        let mut z = 0;
        for c in self.code {
            z += reads_of(c.inst, r);
        }
        z
    }

    // What happens to an instruction that writes d, an old register that one field writes.
    fn how_single(self, i: Inst, d: Reg) -> How
        ensures { how_in result ≡ how_one (uses_in self.entry.facts.now d.0) (steps.own_uses self.entry.code.now d.0) d.0 (fixed_of i) }
    {
        if is_const(i) {
            return How::LeftOut;
        }
        if facts::uses_of(self.facts, d) == self.own_uses(d) {
            How::Renumbered(d)
        } else {
            How::Kept
        }
    }

    // What happens to an instruction that writes only d, or d first.
    #[inline(always)]
    fn how_written(self, i: Inst, d: Reg) -> How
        ensures { (body : Option ℕ) (budget : ℕ)
            → how_in result
            ≡ steps.how_written (facts_in self.entry.facts.now body budget) (steps.own_uses self.entry.code.now) (fixed_of i) (d.0 ∷ []) }
    {
        if (d.0 as usize) < facts::registers(self.facts) && facts::is_single(self.facts, d) {
            self.how_single(i, d)
        } else {
            How::Kept
        }
    }

    // What happens to an instruction of the target.
    fn how_of(self, i: Inst) -> How
        ensures { (body : Option ℕ) (budget : ℕ)
            → how_in result ≡ steps.how_of (facts_in self.entry.facts.now body budget) (steps.own_uses self.entry.code.now) i }
    {
        let q = roles::roles_of(i);
        match q.written() {
            [] => How::Kept,
            [d, ..] => self.how_written(i, *d),
        }
    }

    // The copy; m is the first new number.
    fn copied(self, m: Reg) -> Copied
        requires { m.0 ≤ 65535 }
        ensures { CopyOf self.entry.facts.now self.entry.code.now m.0 result }
    {
        let mut s = Copied::empty();
        for x in self.code {
            let how = self.how_of(x.inst);
            let k = s.next(m);
            s.place(how, *x, k);
        }
        s
    }
}

// The first four instructions of a target, held by value: document 01's form is an array of four.
fn taken(code: &[u8]) -> [Code; 4]
    ensures { result ≡ first_four (codes_of code.now) }
{
    std::array::from_fn(|k| codec::code_of(records::record_at(code, k)))
}

// The copy of a target's first four instructions; m is the first new number, 65535 at most.
pub fn copy_of(code: &[u8], facts: &[u64], m: Reg) -> Copied
    ensures { CopyOf facts.now (take 4 (codes_of code.now)) (min m.0 65535) result }
{
    let n = (code.len() / 32).min(4);
    let first = taken(code);
    let target = Target {
        code: &first[..n],
        facts,
    };
    target.copied(Reg(m.0.min(65535)))
}
