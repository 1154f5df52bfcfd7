ghost use Rattle.std.specs.Prelude.{◌≡◌, [], ◌∷◌, not, ◌≤◌, ◌<◌, eqb, count_by};
ghost use Rattle.layout.specs.Walk.{lead};
ghost use Rattle.read.specs.Structure.{tiles as tilesAfter, tiled, terminator as isTerminator, code_of, ended, ends_well};
ghost use Rattle.read.specs.Reading.{answer, unless};
ghost use Rattle.read.specs.Refusal.{reading_of};
ghost use Rattle.read.specs.Work.{InCode, closes};
ghost use Rattle.read.specs.Spans.{spanned};

use crate::span::Span;
use crate::{Reason, Refusal};
use inst::Kind;
use records::Record;

// Whether the block starts where the one before it ended, isn't empty, and ends within the code;
// the last must end with it.
#[tactic(auto, unfolding(crate::specs::Structure::tiles))]
fn tiles(n: u32, due: u32, left: usize, r: Record) -> bool
    ensures { result ≡ tilesAfter n (due, left) r }
{
    r.p1 == due && r.p1 < r.p2 && r.p2 <= n && (left != 1 || r.p2 == n)
}

// Whether the blocks tile n instructions of code; else the first that doesn't is refused.
pub fn tiled_blocks(blocks: Span, n: u32) -> Result<(), Refusal>
    ensures { reading_of result ≡ unless 4 blocks.entry.first (tiled n (spanned blocks.entry)) blocks.entry.count (answer 0 0) }
{
    let mut due = 0;
    for k in 0..blocks.count {
        let r = blocks.at(k);
        if !tiles(n, due, blocks.count - k, r) {
            return Err(blocks.refused(Reason::Tiling, k));
        }
        due = r.p2;
    }
    Ok(())
}

// The terminators' kinds are those from Br to Unreachable.
fn terminator(r: Record) -> bool
    ensures { result ≡ isTerminator r }
{
    u32::from(Kind::Br) <= r.kind && r.kind <= u32::from(Kind::Unreachable)
}

// How many of a block's instructions come before the first terminator.
fn first_terminator(code: Span) -> usize
    ensures { result ≡ lead (λ i. not (isTerminator i)) (spanned code.entry) }
{
    let end = code.first + code.count;
    let run = (code.first..end).take_while(|k| !terminator(records::record_at(code.b, *k)));
    run.count()
}

// Whether the last of a block's instructions is its only terminator.
fn ends_well(code: Span) -> bool
    ensures { result ≡ ends_well (spanned code.entry) }
{
    first_terminator(code) + 1 == code.count
}

// The instructions of a block.
fn code_of<'a>(code: Span<'a>, block: Record) -> Span<'a>
    requires { (block.p1 < block.p2) × (block.p2 ≤ code.count) }
    ensures { spanned result ≡ code_of (spanned code.entry) block }
{
    let start = block.p1 as usize;
    Span {
        b: code.b,
        first: code.first + start,
        count: block.p2 as usize - start,
    }
}

// The first block that doesn't end in its only terminator is refused.
fn first_wrong_end(blocks: Span, code: Span) -> Result<(), Refusal>
    requires { InCode code.count (spanned blocks) }
    ensures { reading_of result ≡ unless 5 blocks.entry.first (ended (spanned code.entry) (spanned blocks.entry)) blocks.entry.count (answer 0 0) }
{
    for k in 0..blocks.count {
        if !ends_well(code_of(code, blocks.at(k))) {
            return Err(blocks.refused(Reason::Terminator, k));
        }
    }
    Ok(())
}

// How many of the instructions are terminators. The end is at most the file's, and the `min` says so to LLVM, which then asks of no
// record whether it is there.
fn terminators(code: Span) -> u32
    ensures { result ≡ count_by isTerminator (spanned code.entry) }
{
    let end = (code.first + code.count).min(code.b.len() / 32);
    let mut n = 0;
    for k in code.first..end {
        n += u32::from(terminator(records::record_at(code.b, k)));
    }
    n
}

// Whether the last instruction of each block is a terminator.
fn each_ends(blocks: Span, code: Span) -> bool
    requires { InCode code.count (spanned blocks) }
    ensures { result ≡ eqb (lead (closes (spanned code.entry)) (spanned blocks.entry)) blocks.entry.count }
{
    for k in 0..blocks.count {
        let last = blocks.at(k).p2 as usize - 1;
        if !terminator(code.at(last)) {
            return false;
        }
    }
    true
}

// Whether each of the blocks ends in its only terminator; else the first that doesn't is refused.
// Blocks that tile the code do if each ends in a terminator and the code has no more terminators than blocks. That is asked first: a
// processor predicts those branches, but not where a walk to a block's first terminator ends. Not inlined: all of Read in one
// function has too few registers, and drawn files of 240 instructions then take 3.2 % more instructions.
#[inline(never)]
pub fn ended_blocks(blocks: Span, code: Span) -> Result<(), Refusal>
    requires { blocks.count ≤ tiled code.count (spanned blocks) }
    ensures { reading_of result ≡ unless 5 blocks.entry.first (ended (spanned code.entry) (spanned blocks.entry)) blocks.entry.count (answer 0 0) }
{
    if terminators(code) as usize == blocks.count && each_ends(blocks, code) {
        return Ok(());
    }
    first_wrong_end(blocks, code)
}
