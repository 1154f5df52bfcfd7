// Document 01's Tidy: whether a file is tidy, or its lowest offending register.
#![tactic(auto)]

ghost use Rattle.std.specs.Prelude.{◌≡◌};
ghost use Rattle.records.specs.Record.{records_of};
ghost use Rattle.procedure.specs.Procedure.{procedure_of};
ghost use Rattle.tidy.specs.Tidy.{offenders, tidiness};
ghost use Rattle.tidy.specs.Told.{tidiness_of};
ghost use Rattle.tidy.specs.Work.Reads.{lowest_of};

use file::File;
use inst::Reg;
use read::Refusal;
use reads::Reads;
use writers::Writer;

mod file;
mod lead;
mod reader;
mod reads;
mod targets;
mod writers;

fn judge(f: File) -> Option<Reg>
    ensures { result ≡ lowest_of (offenders (procedure_of (records_of f.entry.b.now))) }
{
    let mut ws = [Writer::Nothing; 756];
    writers::note_blocks(f, &mut ws);
    let mut targets = [targets::NOWHERE; 160];
    targets::note_targets(f, &mut targets);
    let r = Reads {
        f,
        ws: &ws,
        targets: &targets,
    };
    r.read_blocks()
}

// The lowest offending register, or none if the file is tidy.
pub fn tidy(b: &[u8]) -> Result<Option<Reg>, Refusal>
    ensures { tidiness_of result ≡ tidiness b.now }
{
    read::read(b)?;
    let l = parts::starts(b);
    Ok(judge(File { b, l }))
}
