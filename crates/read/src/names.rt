ghost use Rattle.std.specs.Prelude.{◌≡◌, ◌+◌, length, drop};
ghost use Rattle.records.specs.Record.{records_of};
ghost use Rattle.record_rules.specs.Exist.{names_exist};
ghost use Rattle.layout.specs.Walk.{lead};
ghost use Rattle.read.specs.Reading.{answer, unless};
ghost use Rattle.read.specs.Refusal.{reading_of};

use crate::file::File;
use crate::{Reason, Refusal, refused};
use record_rules::exist::{Counts, Limits};

// Whether all records from the bodies on name what exists; else the first that doesn't is refused.
// By a chain, as in `layout::span`, all of Read takes 2.7 % more instructions.
pub fn named_records(f: File, n: Counts) -> Result<(), Refusal>
    ensures { reading_of result ≡ unless 7 0 (f.entry.l.bodies + lead (names_exist n) (drop f.entry.l.bodies (records_of f.entry.b.now)))
        (length (records_of f.entry.b.now)) (answer 0 0) }
{
    let limits = Limits::of(n);
    for k in f.l.bodies..f.b.len() / 32 {
        if !record_rules::exist::names_exist(&limits, records::record_at(f.b, k)) {
            return Err(refused(Reason::Name, k));
        }
    }
    Ok(())
}
