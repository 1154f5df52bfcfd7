ghost use Rattle.std.specs.Prelude.{◌≡◌, ℕ, ◌≤◌, length};

use crate::How;
use inst::{Code, Reg};

// A copy: n instructions, and each of `fresh` old registers that got a new number, with that number.
// Arrays and no ArrayVec, which isn't Copy.
#[derive(Clone, Copy)]
pub struct Copied {
    pub code: [Code; 4],
    pub n: usize,
    pub given: [(Reg, Reg); 4],
    pub fresh: usize,
    ghost four_codes: { length code ≡ 4 },
    ghost four_pairs: { length given ≡ 4 },
    ghost fits: { n ≤ 4 },
    ghost each_writes: { fresh ≤ n },
}

impl Copied {
    ghost use Rattle.std.specs.Prelude.{◌+◌, ◌<◌};
    ghost use Rattle.steps.specs.Copy as steps;
    ghost use Rattle.copy.specs.Storage.{how_in, codes_in, pairs_of, local_in, Placed};

    // A copy of nothing.
    pub(crate) fn empty() -> Copied
        ensures { (result.n ≡ 0) × (result.fresh ≡ 0) }
    {
        Copied {
            code: Default::default(),
            n: 0,
            given: Default::default(),
            fresh: 0,
        }
    }

    // Its instructions.
    pub fn code(&self) -> &[Code]
        ensures value { result.now ≡ codes_in self.now }
        ensures fits { length result.now ≤ 4 }
    {
        &self.code[..self.n]
    }

    // The registers that got a new number, each with it.
    pub fn given(&self) -> &[(Reg, Reg)]
        ensures value { result.now ≡ pairs_of self.now }
        ensures fits { length result.now ≤ 4 }
    {
        &self.given[..self.fresh]
    }

    // An instruction with its reads renamed.
    fn kept(&self, x: Code) -> Code
        ensures { result ≡ steps.renamed (local_in self.now) (λ (r : ℕ). r) x }
    {
        Code {
            inst: visit_mut::renamed(x.inst, self.given()),
            stmt: x.stmt,
        }
    }

    // The same, with m in place of d where it writes.
    fn renumbered(&self, x: Code, d: Reg, m: Reg) -> Code
        ensures { result ≡ steps.renamed (local_in self.now) (steps.written d.0 m.0) x }
    {
        Code {
            inst: visit_mut::exchange(x.inst, self.given(), d, m),
            stmt: x.stmt,
        }
    }

    // The next new number; m is the first.
    pub(crate) fn next(&self, m: Reg) -> Reg
        requires { m.0 ≤ 65535 }
        ensures { result.0 ≡ m.0 + self.now.fresh }
    {
        Reg(m.0 + self.fresh as u32)
    }

    // Copies one more instruction of the target; m is the next new number.
    pub(crate) fn place(&mut self, how: How, x: Code, m: Reg)
        requires { self.old.n < 4 }
        ensures { Placed self.old (how_in how) x m.0 self.new }
    {
        match how {
            How::LeftOut => {}
            How::Renumbered(d) => {
                let y = self.renumbered(x, d, m);
                self.code[self.n] = y;
                self.n += 1;
                self.given[self.fresh] = (d, m);
                self.fresh += 1;
            }
            How::Kept => {
                let y = self.kept(x);
                self.code[self.n] = y;
                self.n += 1;
            }
        }
    }
}
