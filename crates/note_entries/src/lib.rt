// Known values and copies, kept in two lent slices.
#![tactic(auto)]

ghost use Rattle.std.specs.Prelude.{◌≡◌, ◌+◌, ◌++◌, ◌∷◌, [], cond};
ghost use Rattle.steps.specs.Note.{nothing, forget as forgetOf, source_of, value_of};
ghost use Rattle.facts.specs.Storage.{facts_in};
ghost use Rattle.note_entries.specs.Storage.{known_in, held_in, LentBoth, Grows};

use inst::Reg;

mod entries;
mod find;

pub use entries::Entries;

// What is known: values of registers, and sources that registers copy.
#[derive(Drop)]
pub struct Known<'a> {
    pub values: Entries<'a, u64>,
    pub copies: Entries<'a, u32>,
}

impl<'a> Known<'a> {
    // Nothing is known.
    pub fn new(values: &'a mut [u64], copies: &'a mut [u32]) -> Known<'a>
        ensures nothing { known_in result ≡ nothing }
        ensures lent { LentBoth values.entry copies.entry result }
        ensures values_kept { result.values.words.now ≡ values.old }
        ensures copies_kept { result.copies.words.now ≡ copies.old }
        ensures values_count { result.values.n ≡ 0 }
        ensures copies_count { result.copies.n ≡ 0 }
    {
        Known {
            values: Entries::new(values),
            copies: Entries::new(copies),
        }
    }

    // What is known after a write of d.
    pub fn forget(&mut self, d: Reg)
        ensures known { known_in self.new ≡ forgetOf d.0 (known_in self.old) }
        ensures grows { Grows 0 0 self.new self.old }
    {
        let r = d.0;
        self.values.retain(|x, _v| x != r as u64);
        self.copies.retain(|x, s| x != r && s != r);
    }

    // Forgets all.
    pub fn clear(&mut self)
        ensures known { known_in self.new ≡ nothing }
        ensures grows { Grows 0 0 self.new self.old }
    {
        self.values.truncate(0);
        self.copies.truncate(0);
    }

    // The source of a register's copy, or the register.
    pub fn source_of(&self, r: Reg) -> Reg
        ensures { result.0 ≡ source_of (known_in self.now) r.0 }
    {
        source_of(self.copies.words(), self.copies.len(), r)
    }

    // The known value of a register, or that of its Const.
    pub fn value_of(&self, facts: &[u64], r: Reg) -> Option<u64>
        ensures { result ≡ value_of (facts_in facts.now None 0) (known_in self.now) r.0 }
    {
        value_of(self.values.words(), self.values.len(), facts, r)
    }
}

// The source of a register's copy, by the first n of entries that are only shared, or the register.
pub fn source_of(copies: &[u32], n: usize, r: Reg) -> Reg
    ensures { result.0 ≡ source_of (held_in 0 n [] copies.now) r.0 }
{
    Reg(find::find(copies, n, r.0).unwrap_or(r.0))
}

// The known value of a register, by such entries, or that of its Const. Tried by `or_else`, and the proof didn't close.
pub fn value_of(values: &[u64], n: usize, facts: &[u64], r: Reg) -> Option<u64>
    ensures { result ≡ value_of (facts_in facts.now None 0) (held_in n 0 values.now []) r.0 }
{
    let f = find::find(values, n, r.0 as u64);
    match f {
        Some(x) => Some(x),
        None => facts::const_of(facts, r),
    }
}
