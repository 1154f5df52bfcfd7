// Document 01's Shorten: bytes in, bytes out. The clauses stand in full at each function: they are what
// a reader has to believe, and tests/theorem.py states them.
#![tactic(auto)]

ghost use Rattle.std.specs.Prelude.{◌≡◌, ◌≢◌, true, false, ◌++◌, ◌+◌, ◌/◌, ◌≤◌, min, length, take, drop, IfOk, IfErr};
ghost use Rattle.read.specs.declared.Reason.TheVariants.{Output};
ghost use Rattle.read.specs.Reading.{reading, answer};
ghost use Rattle.tidy.specs.Tidy.{Tidy, tidiness};
ghost use Rattle.tidy.specs.Told.{tidiness_of};
ghost use Rattle.steps.specs.Shorten as spec;
ghost use Rattle.steps.specs.Told.{told};
ghost use Rattle.steps.specs.Slice.{some_test};
ghost use Rattle.steps.specs.Run.{sliced_form};
ghost use Rattle.machine.specs.Demand.{Demand3};
ghost use Rattle.demand.specs.Lengths.{Demand3Where};
ghost use Rattle.promise.specs.Promise.{held};
ghost use Rattle.parts.specs.Parts.{parts_in};
ghost use Rattle.output.specs.Filed.{outcome};
ghost use Rattle.shortening.specs.Storage.{opens_for};
ghost use Rattle.shorten.specs.Storage.{Room, Fits, Done, Accepted};

use inst::Reg;
use parts::File;
use read::{Reason, Refusal};
use shortening::{Stage, Storage};
use steps::Shortening;

// How many registers and instructions there is storage for, by the size of a file.
const TINY: usize = 12;

const SMALL: usize = 24;

const MEDIUM: usize = 120;

const HALF: usize = 240;

const LARGE: usize = 480;
// How many blocks a file can have.
const BLOCKS: usize = 160;

// Shortens over storage for MOST registers and instructions and some blocks, of the lengths that Room gives; the file gets
// as much as it needs. Not inlined: a small file must not touch a frame of 80 KB. Eight numbers: an array's length can't be
// computed from a const parameter.
#[inline(never)]
fn shorten_over<
    const MOST: usize,
    const BLOCKS: usize,
    const WORK: usize,
    const TABLE: usize,
    const KINDS: usize,
    const WORDS: usize,
    const FACTS: usize,
    const STAGED: usize,
>(file: &File, out: &mut [u8], is_open: bool) -> Result<Shortening, Refusal>
    requires { Room MOST BLOCKS WORK TABLE KINDS WORDS FACTS STAGED }
    ensures { Fits MOST BLOCKS (parts_in file.now) → is_open ≡ opens_for (parts_in file.now)
        → Done (parts_in file.now) result out.old out.new }
{
    let mut work = [0u8; WORK];
    let mut table = [0u8; TABLE];
    let mut kinds = [0u8; KINDS];
    let mut known = [0u64; WORDS];
    let mut copy = [0u32; WORDS];
    let mut facts = [0u64; FACTS];
    let mut staged = [0u8; STAGED];
    let mut heads = [0u8; TABLE];
    let nb = (file.heads().len() / 32).min(BLOCKS);
    let nr = (file.registers().len() / 32).min(MOST);
    let mut storage = Storage {
        work: &mut work,
        table: &mut table[..32 * nb],
        kinds: &mut kinds,
        known: &mut known,
        copy: &mut copy,
        facts: &mut facts[..5 * nr],
    };
    let mut stage = Stage {
        code: &mut staged,
        heads: &mut heads[..32 * nb],
    };
    shortening::shorten_in(file, out, &mut storage, &mut stage, is_open)
}

// True implies at most n registers, n blocks and n instructions.
fn fits(file: &File, n: usize) -> bool
    ensures { result ≡ true → Fits n n (parts_in file.now) }
{
    file.registers().len() / 32 <= n && file.heads().len() / 32 <= n && file.code().len() / 32 <= n
}

// Shortens a file over storage of its size; it is known whether its gate is open.
#[inline(always)]
fn shorten_sized(file: &File, out: &mut [u8], is_open: bool) -> Result<Shortening, Refusal>
    requires { is_open ≡ opens_for (parts_in file.now) }
    ensures { Done (parts_in file.now) result out.old out.new }
{
    if fits(file, TINY) {
        shorten_over::<TINY, TINY, 1760, 384, 46, 54, 60, 1728>(file, out, is_open)
    } else if fits(file, SMALL) {
        shorten_over::<SMALL, SMALL, 2688, 768, 52, 78, 120, 2304>(file, out, is_open)
    } else if fits(file, MEDIUM) {
        shorten_over::<MEDIUM, MEDIUM, 9984, 3840, 100, 270, 600, 6912>(file, out, is_open)
    } else if fits(file, HALF) {
        shorten_over::<HALF, BLOCKS, 19104, 5120, 160, 510, 1200, 12672>(file, out, is_open)
    } else {
        shorten_over::<LARGE, BLOCKS, 37344, 5120, 280, 990, 2400, 24192>(file, out, is_open)
    }
}

// Shortens an accepted file within the limits. One that no step changes needs no storage.
#[inline(always)]
fn shorten_read(file: &File, out: &mut [u8]) -> Result<Shortening, Refusal>
    ensures { Done (parts_in file.now) result out.old out.new }
{
    match shortening::glance(file) {
        None => shortening::put_sent(out, file),
        Some(is_open) => shorten_sized(file, out, is_open),
    }
}

// An opened file that Read has accepted. The limits are at most 480, for which there is storage. Two numbers
// and no struct: callers give `shorten_within` two, and only this function compares them. It is inlined with what it calls: since
// two functions call it, the compiler wouldn't, and straight code took 1 to 3 % more.
#[inline(always)]
fn shorten_limited(
    file: &File,
    out: &mut [u8],
    registers: usize,
    code: usize,
) -> Result<Shortening, Refusal>
    ensures { Accepted file.now → registers ≤ 480 → code ≤ 480
        → outcome (told result) out.new ≡ spec.shorten_within registers code file.now.bytes.now out.old }
{
    if registers < file.registers().len() / 32 || code < file.code().len() / 32 {
        Err(Refusal {
            reason: Reason::ShorteningLimit,
            place: 0,
        })
    } else {
        shorten_read(file, out)
    }
}

// A file that Read has accepted.
fn shorten_accepted(
    bytes: &[u8],
    out: &mut [u8],
    registers: usize,
    code: usize,
) -> Result<Shortening, Refusal>
    requires { ((reading bytes.now).number ≡ 0) × (registers ≤ 480) × (code ≤ 480) }
    ensures { outcome (told result) out.new ≡ spec.shorten_within registers code bytes.now out.old }
{
    let file = File::open(bytes);
    shorten_limited(&file, out, registers, code)
}

// Shortens an opened file that Read has accepted, as `shorten_within` does after it has read and opened a file.
pub fn shorten_opened(
    file: &File,
    out: &mut [u8],
    registers: usize,
    code: usize,
) -> Result<Shortening, Refusal>
    ensures { Accepted file.now
        → outcome (told result) out.new ≡ spec.shorten_within (min registers 480) (min code 480) file.now.bytes.now out.old }
{
    shorten_limited(file, out, registers.min(480), code.min(480))
}

// Any file, with limits of at most 480.
fn shorten_below(
    bytes: &[u8],
    out: &mut [u8],
    registers: usize,
    code: usize,
) -> Result<Shortening, Refusal>
    requires { (registers ≤ 480) × (code ≤ 480) }
    ensures is { outcome (told result) out.new ≡ spec.shorten_within registers code bytes.now out.old }
    ensures accepted { IfOk result (λ s. reading (take s.length out.new) ≡ answer 0 0) }
    ensures room { 61728 ≤ length out.old → IfErr result (λ e. e.reason ≢ Output) }
    ensures unmoved { IfOk result (λ s. s.moved ≡ false → out.new ≡ bytes.now ++ drop (length bytes.now) out.old) }
    ensures bound { IfOk result (λ s. spec.instructions (take s.length out.new)
        ≤ spec.instructions bytes.now + spec.instructions bytes.now / 2 + 36) }
    ensures demand3 { IfOk result (λ s. Tidy (held bytes.now)
        → Demand3Where (held bytes.now) (sliced_form (held bytes.now)) (held (take s.length out.new)) s.rescued) }
    ensures unsliced { IfOk result (λ s. Tidy (held bytes.now) → some_test (sliced_form (held bytes.now)).tests ≡ false
        → Demand3 (held bytes.now) (held (take s.length out.new)) s.rescued) }
{
    read::read(bytes)?;
    shorten_accepted(bytes, out, registers, code)
}

// Shortens a file within some limits, which are capped at 480, into the output buffer, or refuses
// it.
pub fn shorten_within(
    bytes: &[u8],
    out: &mut [u8],
    registers: usize,
    code: usize,
) -> Result<Shortening, Refusal>
    ensures is { outcome (told result) out.new ≡ spec.shorten_within (min registers 480) (min code 480) bytes.now out.old }
    ensures accepted { IfOk result (λ s. reading (take s.length out.new) ≡ answer 0 0) }
    ensures room { 61728 ≤ length out.old → IfErr result (λ e. e.reason ≢ Output) }
    ensures unmoved { IfOk result (λ s. s.moved ≡ false → out.new ≡ bytes.now ++ drop (length bytes.now) out.old) }
    ensures bound { IfOk result (λ s. spec.instructions (take s.length out.new)
        ≤ spec.instructions bytes.now + spec.instructions bytes.now / 2 + 36) }
    ensures demand3 { IfOk result (λ s. Tidy (held bytes.now)
        → Demand3Where (held bytes.now) (sliced_form (held bytes.now)) (held (take s.length out.new)) s.rescued) }
    ensures unsliced { IfOk result (λ s. Tidy (held bytes.now) → some_test (sliced_form (held bytes.now)).tests ≡ false
        → Demand3 (held bytes.now) (held (take s.length out.new)) s.rescued) }
{
    shorten_below(bytes, out, registers.min(480), code.min(480))
}

// Shortens a file into the output buffer, or refuses it.
pub fn shorten(bytes: &[u8], out: &mut [u8]) -> Result<Shortening, Refusal>
    ensures is { record { answer = told result; output = out.new } ≡ spec.shorten bytes.now out.old }
    ensures accepted { IfOk result (λ s. reading (take s.length out.new) ≡ answer 0 0) }
    ensures room { 61728 ≤ length out.old → IfErr result (λ e. e.reason ≢ Output) }
    ensures unmoved { IfOk result (λ s. s.moved ≡ false → out.new ≡ bytes.now ++ drop (length bytes.now) out.old) }
    ensures bound { IfOk result (λ s. spec.instructions (take s.length out.new)
        ≤ spec.instructions bytes.now + spec.instructions bytes.now / 2 + 36) }
    ensures demand3 { IfOk result (λ s. Tidy (held bytes.now)
        → Demand3Where (held bytes.now) (sliced_form (held bytes.now)) (held (take s.length out.new)) s.rescued) }
    ensures unsliced { IfOk result (λ s. Tidy (held bytes.now) → some_test (sliced_form (held bytes.now)).tests ≡ false
        → Demand3 (held bytes.now) (held (take s.length out.new)) s.rescued) }
{
    shorten_within(bytes, out, 480, 480)
}

// The answers of Tidy and of Shorten.
#[derive(Clone, Copy)]
pub struct Provisioning {
    pub tidiness: Result<Option<Reg>, Refusal>,
    pub shortening: Result<Shortening, Refusal>,
}

// Asks of a file whether it is tidy, and shortens it, by one reading.
pub fn tidy_and_shorten(bytes: &[u8], out: &mut [u8]) -> Provisioning
    ensures tidiness { tidiness_of result.tidiness ≡ tidiness bytes.now }
    ensures is { record { answer = told result.shortening; output = out.new } ≡ spec.shorten bytes.now out.old }
    ensures accepted { IfOk result.shortening (λ s. reading (take s.length out.new) ≡ answer 0 0) }
    ensures room { 61728 ≤ length out.old → IfErr result.shortening (λ e. e.reason ≢ Output) }
    ensures unmoved { IfOk result.shortening (λ s. s.moved ≡ false → out.new ≡ bytes.now ++ drop (length bytes.now) out.old) }
    ensures bound { IfOk result.shortening (λ s. spec.instructions (take s.length out.new)
        ≤ spec.instructions bytes.now + spec.instructions bytes.now / 2 + 36) }
    ensures demand3 { IfOk result.shortening (λ s. Tidy (held bytes.now)
        → Demand3Where (held bytes.now) (sliced_form (held bytes.now)) (held (take s.length out.new)) s.rescued) }
    ensures unsliced { IfOk result.shortening (λ s. Tidy (held bytes.now) → some_test (sliced_form (held bytes.now)).tests ≡ false
        → Demand3 (held bytes.now) (held (take s.length out.new)) s.rescued) }
    ensures promised { IfOk result.shortening (λ s. result.tidiness ≡ Ok None
        → Demand3Where (held bytes.now) (sliced_form (held bytes.now)) (held (take s.length out.new)) s.rescued) }
{
    match tidy::tidy(bytes) {
        Ok(lowest) => {
            let s = shorten_accepted(bytes, out, 480, 480);
            Provisioning {
                tidiness: Ok(lowest),
                shortening: s,
            }
        }
        Err(e) => Provisioning {
            tidiness: Err(e),
            shortening: Err(e),
        },
    }
}
