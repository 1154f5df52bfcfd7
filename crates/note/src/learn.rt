ghost use Rattle.std.specs.Prelude.{◌≡◌, None};
ghost use Rattle.steps.specs.Note.{alike};
ghost use Rattle.facts.specs.Storage.{facts_in};
ghost use Rattle.note_entries.specs.Storage.{known_in, Grows};
ghost use Rattle.note.specs.Noted.{Roomy, moved, learnt};

use inst::Reg;
use note_entries::Known;

// Whether both have the same kind, I64 or Ptr.
fn copies(facts: &[u64], d: Reg, s: Reg) -> bool
    ensures { result ≡ alike (facts_in facts.now None 0) d.0 s.0 }
{
    let kind = facts::kind_of(facts, d);
    kind == facts::kind_of(facts, s) && (kind == Some(facts::I64) || kind == Some(facts::PTR))
}

// What a Move teaches of d: the value of its source, and the source. Nothing, if a register is moved to itself.
pub fn of_move(k: &Known, facts: &[u64], d: Reg, s: Reg) -> (Option<u64>, Option<Reg>)
    ensures { learnt d.0 result.0 result.1 (known_in k.now)
        ≡ moved (facts_in facts.now None 0) d.0 s.0 (known_in k.now) }
{
    if d == s {
        return (None, None);
    }
    let from = k.source_of(s);
    (
        k.value_of(facts, from),
        copies(facts, d, from).then_some(from),
    )
}

// Adds what is learnt of d: its value, and the register that it copies.
pub fn learn(k: &mut Known, d: Reg, value: Option<u64>, source: Option<Reg>)
    requires { Roomy k.old }
    ensures known { known_in k.new ≡ learnt d.0 value source (known_in k.old) }
    ensures grows { Grows 1 1 k.new k.old }
{
    if let Some(v) = value {
        k.values.push(d.0 as u64, v);
    }
    if let Some(s) = source {
        k.copies.push(d.0, s.0);
    }
}
