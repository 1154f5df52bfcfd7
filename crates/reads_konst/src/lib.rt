// Whether code names a register that only one constant writes: `reads_konst`.
#![tactic(auto)]

ghost use Rattle.std.specs.Prelude.{◌≡◌, ◌++◌};
ghost use Rattle.std.specs.List.{list_any};
ghost use Rattle.roles.specs.Roles.{defs_of, uses_of};
ghost use Rattle.procedure.specs.Lists.{any_of};
ghost use Rattle.procedure.specs.Procedure.{codes_of};
ghost use Rattle.steps.specs.Small as steps;
ghost use Rattle.facts.specs.Storage.{konst_at};

use inst::{Inst, Reg};

// Whether only one Const, ConstF or non-Up AddrOf writes one of some registers.
fn any_konst(regs: &[Reg], facts: &[u64]) -> bool
    ensures { result ≡ list_any (λ r. konst_at facts.now r.0) regs.now }
{
    regs.iter().any(|r| facts::is_konst(facts, *r))
}

// Whether an instruction reads or writes such a register.
fn names_konst(i: Inst, facts: &[u64]) -> bool
    ensures { result ≡ any_of (konst_at facts.now) (defs_of i ++ uses_of i) }
{
    any_konst(roles::roles_of(i).fields(), facts)
}

// The Rust's reads_konst: whether some instruction does.
pub fn reads_konst(code: &[u8], facts: &[u64]) -> bool
    ensures { result ≡ steps.reads_konst (konst_at facts.now) (codes_of code.now) }
{
    (0..code.len() / 32).any(|k| names_konst(ends::inst_at(code, k), facts))
}
