// What is known of registers before a block's last instruction: `note`.
#![tactic(auto)]

ghost use Rattle.std.specs.Prelude.{◌≡◌, cond, ◌/◌, ◌≤◌, length, option_map, IfSome};
ghost use Rattle.roles.specs.Roles.{defs_of};
ghost use Rattle.steps.specs.Note.{forget_all, note as note_of, notes as notesOf, nothing};
ghost use Rattle.procedure.specs.Procedure.{codes_of};
ghost use Rattle.facts.specs.Storage.{facts_in};
ghost use Rattle.note_entries.specs.Storage.{known_in, LentBoth, Grows};
ghost use Rattle.note.specs.Noted.{Roomy, enough};

use inst::Inst;
use note_entries::Known;

mod bools;
mod learn;

// What is known after what an instruction writes is forgotten: of more than two registers, nothing.
#[tactic(auto, unfolding(steps::specs::Note::forget_all))]
fn forget_written(k: &mut Known, i: Inst)
    ensures known { known_in k.new ≡ forget_all (defs_of i) (known_in k.old) }
    ensures grows { Grows 0 0 k.new k.old }
{
    let q = roles::roles_of(i);
    match q.written() {
        [_, _, _, ..] => k.clear(),
        [d, e] => {
            k.forget(*d);
            k.forget(*e);
        }
        [d] => k.forget(*d),
        [] => {}
    }
}

// What is known after an instruction, in the order of the Rust's `note`: what the instruction writes is forgotten first, and then a
// Const, a Move and a Bool teach something. The facts aren't part of Known, since each method that changes it would have to promise
// that they stay.
#[tactic(auto, unfolding(steps::specs::Note::forget_all, steps::specs::Note::learn, ends::specs::Forms::form_of))]
#[inline(always)]
fn note(k: &mut Known, facts: &[u64], i: Inst)
    requires { Roomy k.old }
    ensures known { known_in k.new ≡ note_of (facts_in facts.now None 0) (known_in k.old) i }
    ensures grows { Grows 1 1 k.new k.old }
{
    forget_written(k, i);
    match i {
        Inst::Const { dst, v } => learn::learn(k, dst, Some(v), None),
        Inst::Move { dst, src } => {
            let (v, s) = learn::of_move(k, facts, dst, src);
            learn::learn(k, dst, v, s);
        }
        Inst::Bool { op, dst, a, b } => {
            let v = bools::bool_of(op, k.value_of(facts, a), k.value_of(facts, b));
            learn::learn(k, dst, v, None);
        }
        _ => {}
    }
}

// What is known after the instructions of some records, starting with nothing, or None if a slice has fewer than two words for
// each record. What `ends::inst_at` does is written out here, so that it is inlined (docs/requests/2.3.md).
pub fn notes<'a>(
    code: &[u8],
    known: &'a mut [u64],
    copy: &'a mut [u32],
    facts: &[u64],
) -> Option<Known<'a>>
    ensures known { option_map known_in result
        ≡ cond (enough (length code.now / 32) known.old copy.old)
        (Some (notesOf (facts_in facts.now None 0) nothing (codes_of code.now)))
        None }
    ensures lent { IfSome result (LentBoth known.entry copy.entry) }
{
    let n = code.len() / 32;
    if known.len() / 2 < n {
        return None;
    }
    if copy.len() / 2 < n {
        return None;
    }
    let mut k = Known::new(known, copy);
    for j in 0..n {
        note(&mut k, facts, codec::inst_of(records::record_at(code, j)));
    }
    Some(k)
}
