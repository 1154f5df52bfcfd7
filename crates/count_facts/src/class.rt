ghost use Rattle.std.specs.Prelude.{◌≡◌, cond};
ghost use Rattle.ends.specs.Forms.{is_up};
ghost use Rattle.count_facts.specs.Filling.{with_word, with_konst};

use inst::{AddrSpace, Reg};

// Stores the class of a register that a Const writes, and its v, unless a Const has written it before. A class is stored whatever
// else writes the register, since its definitions are still being counted: facts::const_of and is_konst ask for both.
#[tactic(auto, unfolding(crate::specs::Filling::with_word))]
pub fn put_word(table: &mut [u64], d: Reg, v: u64)
    ensures { table.new ≡ with_word table.old d.0 v }
{
    let at = facts::ROW * (d.0 as usize);
    if at + facts::VALUE < table.len() && table[at + facts::CLASS] != facts::BY_CONST {
        table[at + facts::CLASS] = facts::BY_CONST;
        table[at + facts::VALUE] = v;
    }
}

// Stores the class of a register that a ConstF or a non-Up AddrOf writes, unless it has one.
#[tactic(auto, unfolding(crate::specs::Filling::with_konst))]
pub fn put_konst(table: &mut [u64], d: Reg)
    ensures { table.new ≡ with_konst table.old d.0 }
{
    let at = facts::ROW * (d.0 as usize) + facts::CLASS;
    if at < table.len() && table[at] == 0 {
        table[at] = facts::BY_OTHER;
    }
}

fn is_up(space: AddrSpace) -> bool
    ensures { result ≡ is_up space }
{
    matches!(space, AddrSpace::Up(_))
}

// The same for an AddrOf.
pub fn put_address(table: &mut [u64], d: Reg, space: AddrSpace)
    ensures { table.new ≡ cond (is_up space) table.old (with_konst table.old d.0) }
{
    if !is_up(space) {
        put_konst(table, d);
    }
}
