// Shorten over lent storage, for an accepted file within the limits.
#![tactic(auto)]

ghost use Rattle.std.specs.Prelude.{◌≡◌, true, false, ◌&&◌, not, ltb, ◌*◌, ◌/◌, min, map, length, take, IfSome, IfNone};
ghost use Rattle.records.specs.Record.{records_of};
ghost use Rattle.put_record.specs.Store.{Bytes};
ghost use Rattle.procedure.specs.Procedure.{Procedure, first_of};
ghost use Rattle.steps.specs.Run.{Shortened, unchanged, threaded_form, slice_if, run as run_of};
ghost use Rattle.steps.specs.Shorten.{shortened};
ghost use Rattle.steps.specs.Told.{told};
ghost use Rattle.pause.specs.Storage.{body_in};
ghost use Rattle.parts.specs.Parts.{parts_in};
ghost use Rattle.procedure_parts.specs.Opened.{recoded, Holds, Parted, Opened};
ghost use Rattle.run.specs.Ran.{left, slices_in};
ghost use Rattle.output.specs.Filed.{outcome};
ghost use Rattle.shortening.specs.Kept.{SameStorage, SameStage};
ghost use Rattle.shortening.specs.Storage.{fronted, lent, opens_for, NoStepIn, Tells, form_with, LeftOf, Enough, Staging};

use blocks::Blocks;
use inst::BlockId;
use output::{Changes, Form};
use parts::File;
use pause::Pause;
use read::Refusal;
use run::{Begin, Ran};
use steps::Shortening;

// Storage that is lent for a file: code, block table, kinds of new registers, known values, copies and facts.
#[derive(Drop)]
pub struct Storage<'a> {
    pub work: &'a mut [u8],
    pub table: &'a mut [u8],
    pub kinds: &'a mut [u8],
    pub known: &'a mut [u64],
    pub copy: &'a mut [u32],
    pub facts: &'a mut [u64],
}

// And what Emit leaves code and block table in.
#[derive(Drop)]
pub struct Stage<'a> {
    pub code: &'a mut [u8],
    pub heads: &'a mut [u8],
}

// Writes some bytes over the start of b, as far as there is room. By index, as emit_records copies.
fn put_front(b: &mut [u8], s: &[u8])
    ensures is { b.new ≡ fronted b.old s.now }
    ensures bytes { Bytes b.new }
{
    for k in 0..s.len().min(b.len()) {
        b[k] = s[k];
    }
}

// The body, if there is one.
pub fn pause_of(body: &[u8]) -> Pause
    ensures { body_in result ≡ first_of (map (λ r. r.p1) (records_of body.now)) }
{
    if body.len() / 32 == 0 {
        return None;
    }
    let r = records::record_at(body, 0);
    Some(BlockId(r.p1))
}

// A glance at a file: None if no step would change it, else whether its gate is open.
#[inline(always)]
pub fn glance(file: &File) -> Option<bool>
    ensures none { IfNone result (NoStepIn (parts_in file.now)) }
    ensures some { IfSome result (λ b. b ≡ opens_for (parts_in file.now)) }
{
    run::glance(file.code(), file.heads(), pause_of(file.body()))
}

// Writes the result in code, block table and new registers, with the other parts of the file, if it
// fits. Six parameters: tried as a Form that a function makes of a file, and the borrow checker
// doesn't cover it: a Form has one lifetime, and the file's parts and the lent slices have several.
fn put(
    out: &mut [u8],
    file: &File,
    code: &[u8],
    heads: &[u8],
    kinds: &[u8],
    did: Changes,
) -> Result<Shortening, Refusal>
    ensures { (s : Shortened)
        → Holds s.procedure (recoded (parts_in file.now) code.now heads.now) kinds.now
        → Tells s did (length kinds.now)
        → outcome (told result) out.new ≡ shortened s out.old }
{
    let form = Form {
        registers: file.registers(),
        kinds,
        heads,
        body: file.body(),
        code,
        operands: file.operands(),
        arms: file.arms(),
    };
    output::put_form(out, &form, did)
}

// Writes the parts of a file as they were sent.
pub fn put_sent(out: &mut [u8], file: &File) -> Result<Shortening, Refusal>
    ensures { (p : Procedure) → Parted p (parts_in file.now)
        → outcome (told result) out.new ≡ shortened (unchanged p) out.old }
{
    put(
        out,
        file,
        file.code(),
        file.heads(),
        &[],
        Changes {
            moved: false,
            grown: 0,
            rescued: 0,
        },
    )
}

// Code, block table and new registers hold what Emit left, or what there is if nothing was threaded. Steps after Emit go
// here, each over the storage in place; then the result is written. The flag is whether the gate of `slice_tests` is open. Code and
// block table are no Stage: tried, and the borrow checker doesn't cover a Stage of parts of the storage that is lent here.
fn finish(
    out: &mut [u8],
    file: &File,
    code: &mut [u8],
    heads: &mut [u8],
    kinds: &[u8],
    did: Changes,
    slices: bool,
) -> Result<Shortening, Refusal>
    ensures { (s : Shortened)
        → Holds s.procedure (recoded (parts_in file.now) code.old heads.old) kinds.now
        → Tells s did (length kinds.now)
        → outcome (told result) out.new ≡ shortened (slice_if slices s).form out.old }
{
    if !slices {
        return put(out, file, code, heads, kinds, did);
    }
    let registers = file.registers().len() / 32 + kinds.len();
    let any = slice::slice(code, heads, file.operands(), registers);
    put(
        out,
        file,
        code,
        heads,
        kinds,
        Changes {
            moved: did.moved | any,
            ..did
        },
    )
}

// The gate of `slice_tests` where nothing is threaded, of n instructions whose equal arms are joined.
fn slices(s: &Storage, n: usize, with_slices: bool) -> bool
    ensures { result ≡ (with_slices && (not (ltb n 6)
        && slices_in (take (32 * min n (length s.now.work.now / 32)) s.now.work.now) s.now.table.now)) }
{
    let m = n.min(s.work.len() / 32);
    let blocks = Blocks {
        code: &s.work[..32 * m],
        table: s.table,
    };
    with_slices && n >= 6 && gate::has_lengths(blocks.code) && gate::has_back_edge(blocks)
}

// Nothing is threaded: the storage holds the threaded form already, the code with its equal arms joined. The flag is whether
// `slice_tests` is wanted.
fn write_same(
    out: &mut [u8],
    file: &File,
    s: &mut Storage,
    r: Ran,
    with_slices: bool,
) -> Result<Shortening, Refusal>
    ensures same_storage { SameStorage s.old s.new }
    ensures is { (p : Procedure)
        → LeftOf p (parts_in file.now) (left s.old.work.now s.old.table.now s.old.kinds.now s.old.facts.now r)
        → r.at.edited ≡ false → outcome (told result) out.new ≡ shortened (form_with with_slices p) out.old }
{
    let n = file.code().len() / 32;
    let to_slice = slices(s, n, with_slices);
    let m = n.min(s.work.len() / 32);
    finish(
        out,
        file,
        &mut s.work[..32 * m],
        s.table,
        &[],
        Changes {
            moved: r.joined,
            grown: 0,
            rescued: 0,
        },
        to_slice,
    )
}

// Threading edited some block, so the file has 6 instructions and a block that leads back. Emit leaves its result in the storage for it.
fn write_emitted(
    out: &mut [u8],
    file: &File,
    s: &Storage,
    stage: &mut Stage,
    r: Ran,
    with_slices: bool,
) -> Result<Shortening, Refusal>
    ensures same_stage { SameStage stage.old stage.new }
    ensures is { (p : Procedure)
        → LeftOf p (parts_in file.now) (left s.now.work.now s.now.table.now s.now.kinds.now s.now.facts.now r)
        → Staging (parts_in file.now) (length stage.old.code.now) (length stage.old.heads.now)
        → r.at.edited ≡ true → outcome (told result) out.new ≡ shortened (form_with with_slices p) out.old }
{
    let blocks = Blocks {
        code: s.work,
        table: s.table,
    };
    let e = emit::emit(stage.code, stage.heads, blocks, file.arms(), s.facts);
    let n = e.n;
    let m = r.at.fresh.min(s.kinds.len());
    let code = &mut stage.code[..32 * n];
    let to_slice = with_slices & gate::has_lengths(code);
    finish(
        out,
        file,
        code,
        stage.heads,
        &s.kinds[..m],
        Changes {
            moved: true,
            grown: u32::try_from(r.at.grown).unwrap_or(u32::MAX),
            rescued: e.rescued,
        },
        to_slice,
    )
}

// Emits what `run` left, if threading edited some block, and writes it. Output and file are no struct: tried, and it is no plainer. It has
// three lifetime parameters, each function takes it apart again, and each clause has `job.old.out.now` for `out.old`. The clauses are
// about any procedure that the file holds, so no ghost field of Storage or Stage can say them.
fn write(
    out: &mut [u8],
    file: &File,
    s: &mut Storage,
    stage: &mut Stage,
    r: Ran,
    with_slices: bool,
) -> Result<Shortening, Refusal>
    ensures same_storage { SameStorage s.old s.new }
    ensures same_stage { SameStage stage.old stage.new }
    ensures is { (p : Procedure)
        → LeftOf p (parts_in file.now) (left s.old.work.now s.old.table.now s.old.kinds.now s.old.facts.now r)
        → Staging (parts_in file.now) (length stage.old.code.now) (length stage.old.heads.now)
        → outcome (told result) out.new ≡ shortened (form_with with_slices p) out.old }
{
    if r.at.edited {
        write_emitted(out, file, s, stage, r, with_slices)
    } else {
        write_same(out, file, s, r, with_slices)
    }
}

// `run` before Emit on the parts of a file. The flag is what `glance` told of the gate.
fn run_in(file: &File, s: &mut Storage, is_open: bool) -> Ran
    ensures same_storage { SameStorage s.old s.new }
    ensures ran { (p : Procedure) → Opened p (parts_in file.now)
        → (is_open ≡ true → opens_for (parts_in file.now) ≡ true)
        → Enough (parts_in file.now)
        (lent s.old.work.now s.old.table.now s.old.kinds.now s.old.facts.now (length s.old.known.now) (length s.old.copy.now))
        → LeftOf p (parts_in file.now) (left s.new.work.now s.new.table.now s.new.kinds.now s.new.facts.now result) }
{
    let code = file.code();
    put_front(s.work, code);
    put_front(s.table, file.heads());
    let begin = Begin {
        pause: pause_of(file.body()),
        n: code.len() / 32,
        is_open,
    };
    run::run(
        s.work,
        s.table,
        s.kinds,
        s.known,
        s.copy,
        s.facts,
        file.operands(),
        file.registers(),
        begin,
    )
}

// Carries out the steps on the parts of a file and writes the result, if it fits.
pub fn shorten_in(
    file: &File,
    out: &mut [u8],
    s: &mut Storage,
    stage: &mut Stage,
    is_open: bool,
) -> Result<Shortening, Refusal>
    ensures same_storage { SameStorage s.old s.new }
    ensures same_stage { SameStage stage.old stage.new }
    ensures is { (p : Procedure) → Opened p (parts_in file.now)
        → (is_open ≡ true → opens_for (parts_in file.now) ≡ true)
        → Enough (parts_in file.now)
        (lent s.old.work.now s.old.table.now s.old.kinds.now s.old.facts.now (length s.old.known.now) (length s.old.copy.now))
        → Staging (parts_in file.now) (length stage.old.code.now) (length stage.old.heads.now)
        → outcome (told result) out.new ≡ shortened (run_of p) out.old }
{
    let r = run_in(file, s, is_open);
    write(out, file, s, stage, r, true)
}

// The same without `slice_tests`, for tests: the result is the threaded form.
pub fn thread_in(
    file: &File,
    out: &mut [u8],
    s: &mut Storage,
    stage: &mut Stage,
) -> Result<Shortening, Refusal>
    ensures same_storage { SameStorage s.old s.new }
    ensures same_stage { SameStage stage.old stage.new }
    ensures is { (p : Procedure) → Opened p (parts_in file.now)
        → Enough (parts_in file.now)
        (lent s.old.work.now s.old.table.now s.old.kinds.now s.old.facts.now (length s.old.known.now) (length s.old.copy.now))
        → Staging (parts_in file.now) (length stage.old.code.now) (length stage.old.heads.now)
        → outcome (told result) out.new ≡ shortened (threaded_form p) out.old }
{
    let r = run_in(file, s, false);
    write(out, file, s, stage, r, false)
}
