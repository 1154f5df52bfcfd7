// Only for tests: the steps, which the benchmark times on storage that it opens itself, and the forms of a file by number. The C
// interface takes numbers and flags, and each slice by itself.
#![tactic(auto)]

ghost use Rattle.std.specs.Prelude.{◌≡◌, true, List, map, ℕ, length, Option};
ghost use Rattle.records.specs.Record.{records_of};
ghost use Rattle.procedure.specs.Procedure.{Procedure, first_of};
ghost use Rattle.steps.specs.Thread.{Work};
ghost use Rattle.steps.specs.Run as run;
ghost use Rattle.steps.specs.Shorten.{refused as refused_by, shortened};
ghost use Rattle.facts.specs.Storage.{facts_in};
ghost use Rattle.procedure_parts.specs.Opened.{Parts, recoded, Holds, Opened};
ghost use Rattle.parts.specs.Parts.{parts_in};
ghost use Rattle.slice.specs.Staged.{Staged};
ghost use Rattle.shorten.specs.Storage.{Room, Fits};
ghost use Rattle.run.specs.Ran.{left, ran_in};
ghost use Rattle.emit.specs.Stage.{Ready, Emitted};
ghost use Rattle.steps.specs.Told.{told};
ghost use Rattle.output.specs.Filed.{outcome, counts, filed, short, form_records};
ghost use Rattle.bench_c.specs.Steps.{ran_of, staged_of, Put};
ghost use Rattle.bench_c.specs.Forms.{answer_of, sent as sentOf, above_in, threaded as threadedOf, form_of};

use blocks::Blocks;
use output::{Changes, Form};
use parts::File;
use read::{Reason, Refusal};
use run::Begin;
use shortening::{Stage, Storage};
use steps::Shortening;

// How far `run` got before Emit.
#[repr(C)]
#[derive(Clone, Copy)]
pub struct HalivomueRan {
    pub top: usize,
    pub grown: u64,
    pub fresh: usize,
    pub joined: bool,
    pub edited: bool,
}

// The steps before emit, over code and block table in lent storage.
#[unsafe(no_mangle)]
pub extern "C" fn halivomue_run(
    work: &mut [u8],
    table: &mut [u8],
    kinds: &mut [u8],
    known: &mut [u64],
    copy: &mut [u32],
    facts: &mut [u64],
    operands: &[u8],
    registers: &[u8],
    body: &[u8],
    n: usize,
) -> HalivomueRan
    ensures { left work.new table.new kinds.new facts.new (ran_of result)
        ≡ ran_in (first_of (map (λ r. r.p1) (records_of body.now))) (length known.old) (length copy.old)
        operands.now registers.now n work.old table.old kinds.old facts.old }
{
    let begin = Begin {
        pause: shortening::pause_of(body),
        n,
        is_open: false,
    };
    let r = run::run(
        work, table, kinds, known, copy, facts, operands, registers, begin,
    );
    let at = r.at;
    HalivomueRan {
        top: at.top,
        grown: at.grown,
        fresh: at.fresh,
        joined: r.joined,
        edited: at.edited,
    }
}

// How many instructions emit left, and how many of them are rescued.
#[repr(C)]
#[derive(Clone, Copy)]
pub struct HalivomueStaged {
    pub n: usize,
    pub rescued: u32,
}

// Emit, into lent storage for code and block table.
#[unsafe(no_mangle)]
pub extern "C" fn halivomue_emit(
    code: &mut [u8],
    heads: &mut [u8],
    work: &[u8],
    table: &[u8],
    arms: &[u8],
    facts: &[u64],
) -> HalivomueStaged
    ensures { (p : Procedure) (w : Work) (body : Option ℕ) (budget : ℕ)
        → Ready (run.emit (facts_in facts.now body budget) p w) p w work.now table.now arms.now
        (length code.old) (length heads.old)
        → Emitted (run.emit (facts_in facts.now body budget) p w) (staged_of result) code.new heads.new }
{
    let blocks = Blocks { code: work, table };
    let e = emit::emit(code, heads, blocks, arms, facts);
    HalivomueStaged {
        n: e.n,
        rescued: e.rescued,
    }
}

// `slice_tests` over code and block table in place, given how many registers there are; true if a Cmp was rewritten.
#[unsafe(no_mangle)]
pub extern "C" fn halivomue_slice(
    code: &mut [u8],
    heads: &[u8],
    operands: &[u8],
    registers: usize,
) -> bool
    ensures { (p : Procedure) (x : Parts) (kinds : List ℕ) → Holds p (recoded x code.old heads.now) kinds
        → operands.now ≡ x.operands → registers ≡ length p.registers → Staged p x kinds code.new heads.now result }
{
    slice::slice(code, heads, operands, registers)
}

// Writes a result with new registers into the output buffer; returns how many bytes were written, 0
// if they don't fit.
#[unsafe(no_mangle)]
pub extern "C" fn halivomue_put(
    out: &mut [u8],
    registers: &[u8],
    kinds: &[u8],
    heads: &[u8],
    body: &[u8],
    code: &[u8],
    operands: &[u8],
    arms: &[u8],
    grown: u32,
    rescued: u32,
) -> usize
    ensures { Put
        (filed
        (form_records registers.now kinds.now heads.now body.now code.now operands.now
        arms.now)
        (counts true grown (short (length kinds.now)) rescued)
        out.old)
        result out.new }
{
    let form = Form {
        registers,
        kinds,
        heads,
        body,
        code,
        operands,
        arms,
    };
    let did = Changes {
        moved: true,
        grown,
        rescued,
    };
    match output::put_form(out, &form, did) {
        Ok(s) => s.length,
        Err(_) => 0,
    }
}

// The answer about a form, in the order of struct halivomue_shortening: number is 0 if the form is written. A struct of its own:
// halivomue_c is a static library, which no crate can use.
#[repr(C)]
#[derive(Clone, Copy)]
pub struct HalivomueForm {
    pub number: u32,
    pub place: u32,
    pub length: usize,
    pub moved: u32,
    pub grown: u32,
    pub fresh: u32,
    pub rescued: u32,
}

// A refusal by its number: 10 is no reason of Shorten's.
fn refused(number: u32, place: u32) -> HalivomueForm
    ensures { answer_of result ≡ refused_by number place }
{
    HalivomueForm {
        number,
        place,
        length: 0,
        moved: 0,
        grown: 0,
        fresh: 0,
        rescued: 0,
    }
}

impl From<Result<Shortening, Refusal>> for HalivomueForm {
    ghost from_gives = { λ r f. answer_of f ≡ told r };

    fn from(r: Result<Shortening, Refusal>) -> HalivomueForm {
        match r {
            Ok(s) => HalivomueForm {
                number: 0,
                place: 0,
                length: s.length,
                moved: s.moved as u32,
                grown: s.grown,
                fresh: s.fresh,
                rescued: s.rescued,
            },
            Err(e) => refused(u32::from(e.reason), e.place),
        }
    }
}

// The form as sent of an accepted file.
fn sent(bytes: &[u8], out: &mut [u8]) -> Result<Shortening, Refusal>
    ensures { outcome (told result) out.new ≡ sentOf bytes.now out.old }
{
    read::read(bytes)?;
    shortening::put_sent(out, &File::open(bytes))
}

// The threaded form over storage for MOST registers and instructions and some blocks, of the lengths that Room gives. Eight numbers:
// an array's length can't be computed from a const parameter. Not inlined: the other forms must not touch a frame of 80 KB.
#[inline(never)]
fn thread_over<
    const MOST: usize,
    const BLOCKS: usize,
    const WORK: usize,
    const TABLE: usize,
    const KINDS: usize,
    const WORDS: usize,
    const FACTS: usize,
    const STAGED: usize,
>(file: &File, out: &mut [u8]) -> Result<Shortening, Refusal>
    requires { Room MOST BLOCKS WORK TABLE KINDS WORDS FACTS STAGED }
    ensures { (p : Procedure) → Opened p (parts_in file.now) → Fits MOST BLOCKS (parts_in file.now)
        → outcome (told result) out.new ≡ shortened (run.threaded_form p) out.old }
{
    let mut work = [0u8; WORK];
    let mut table = [0u8; TABLE];
    let mut kinds = [0u8; KINDS];
    let mut known = [0u64; WORDS];
    let mut copy = [0u32; WORDS];
    let mut facts = [0u64; FACTS];
    let mut staged = [0u8; STAGED];
    let mut heads = [0u8; TABLE];
    let nb = (file.heads().len() / 32).min(BLOCKS);
    let nr = (file.registers().len() / 32).min(MOST);
    let mut storage = Storage {
        work: &mut work,
        table: &mut table[..32 * nb],
        kinds: &mut kinds,
        known: &mut known,
        copy: &mut copy,
        facts: &mut facts[..5 * nr],
    };
    let mut stage = Stage {
        code: &mut staged,
        heads: &mut heads[..32 * nb],
    };
    shortening::thread_in(file, out, &mut storage, &mut stage)
}

// Whether a file is above the shortening limits.
fn above(file: &File) -> bool
    ensures { result ≡ above_in (parts_in file.now) }
{
    file.registers().len() / 32 > 480 || file.code().len() / 32 > 480
}

// The threaded form of a file within the shortening limits.
fn threaded(bytes: &[u8], out: &mut [u8]) -> Result<Shortening, Refusal>
    ensures { outcome (told result) out.new ≡ threadedOf bytes.now out.old }
{
    read::read(bytes)?;
    let file = File::open(bytes);
    if above(&file) {
        return Err(Refusal {
            reason: Reason::ShorteningLimit,
            place: 0,
        });
    }
    thread_over::<480, 160, 37344, 5120, 280, 990, 2400, 24192>(&file, out)
}

// Writes a form of a file into the output buffer: 0 is the file as sent, 1 the threaded form, 2 the sliced form. Any other number is
// refused with 10.
#[unsafe(no_mangle)]
pub extern "C" fn halivomue_form(bytes: &[u8], which: u32, out: &mut [u8]) -> HalivomueForm
    ensures { outcome (answer_of result) out.new ≡ form_of which bytes.now out.old }
{
    match which {
        0 => sent(bytes, out).into(),
        1 => threaded(bytes, out).into(),
        2 => shorten::shorten(bytes, out).into(),
        _ => refused(10, 0),
    }
}
