// The result of Shorten: measured, and written if it fits.
#![tactic(auto)]

ghost use Rattle.std.specs.Prelude.{◌≡◌, length};
ghost use Rattle.steps.specs.Told.{told};
ghost use Rattle.emit_records.specs.Emitted.{Wrote};
ghost use Rattle.output.specs.Filed.{outcome, counts, filed, short as short_of, kind_records, records_in};

use emit_records::Writer;
use inst::RegTy;
use ops::Numbered;
use read::{Reason, Refusal};
use steps::Shortening;

// What the steps did to a file, as Shorten reports it: whether anything changed, and how many
// instructions were copied and rescued. How many registers are new follows from their kinds.
// A flag by itself: where arms were joined, both counts may be 0.
#[derive(Clone, Copy)]
pub struct Changes {
    pub moved: bool,
    pub grown: u32,
    pub rescued: u32,
}

// A count, capped at what a 32-bit field can hold.
fn short(n: usize) -> u32
    ensures { result ≡ short_of n }
{
    u32::try_from(n).unwrap_or(u32::MAX)
}

// Writes the kinds of new registers as records.
fn put_kinds(to: &mut Writer, kinds: &[u8])
    ensures { Wrote to.old (kind_records kinds.now) to.new }
{
    for kind in kinds {
        to.put(items::record_of_register(RegTy::of(*kind as u32)));
    }
}

// The bytes of each class of a result, and the kinds of its new registers.
#[derive(Clone, Copy)]
pub struct Form<'a> {
    pub registers: &'a [u8],
    pub kinds: &'a [u8],
    pub heads: &'a [u8],
    pub body: &'a [u8],
    pub code: &'a [u8],
    pub operands: &'a [u8],
    pub arms: &'a [u8],
}

impl<'a> Form<'a> {
    // How many records it has.
    fn measure(&self) -> usize
        ensures { result ≡ length (records_in self.now) }
    {
        let front = self.registers.len() / 32 + self.heads.len() / 32 + self.body.len() / 32;
        let rest = self.code.len() / 32 + self.operands.len() / 32 + self.arms.len() / 32;
        front + rest + self.kinds.len()
    }

    // Writes it, class by class.
    fn write(&self, to: &mut Writer)
        ensures { Wrote to.old (records_in self.now) to.new }
    {
        to.put_block(self.registers);
        put_kinds(to, self.kinds);
        to.put_block(self.heads);
        to.put_block(self.body);
        to.put_block(self.code);
        to.put_block(self.operands);
        to.put_block(self.arms);
    }
}

// Writes what the steps leave, if it fits.
pub fn put_form(out: &mut [u8], form: &Form, did: Changes) -> Result<Shortening, Refusal>
    ensures { outcome (told result) out.new
        ≡ filed (records_in form.now) (counts did.moved did.grown (short_of (length form.now.kinds.now)) did.rescued) out.old }
{
    let n = form.measure();
    if out.len() / 32 < n {
        return Err(Refusal {
            reason: Reason::Output,
            place: 0,
        });
    }
    form.write(&mut Writer { out, at: 0 });
    Ok(Shortening {
        length: 32 * n,
        moved: did.moved,
        grown: did.grown,
        fresh: short(form.kinds.len()),
        rescued: did.rescued,
    })
}
