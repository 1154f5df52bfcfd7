// `run` before Emit: equal arms, gate, counts, Thread.
#![tactic(auto)]

ghost use Rattle.std.specs.Prelude.{◌≡◌, true, false, length, IfSome, IfNone};
ghost use Rattle.pause.specs.Storage.{body_in};
ghost use Rattle.thread.specs.Storage.{store, thread_in};
ghost use Rattle.run.specs.Ran as r;

use arena::Space;
use blocks::Blocks;
use hop_br::Added;
use hop_cond_br::Room;
use pause::{Facts, Pause};
use thread::Threaded;

// How far `run` got before Emit: whether equal arms were joined, and how far threading got. Arms
// are joined whether or not something is threaded, so the flag is no Option of the rest.
#[derive(Clone, Copy)]
pub struct Ran {
    pub joined: bool,
    pub at: Threaded,
}

// Nothing is threaded.
fn still(n: usize) -> Threaded
    ensures { result ≡ r.still n }
{
    Threaded {
        top: n,
        grown: 0,
        fresh: 0,
        edited: false,
    }
}

// How many instructions copying may append before it stops.
fn budget(n: usize) -> u32
    ensures { result ≡ r.budget_in n }
{
    u32::try_from(n / 2 + 32).unwrap_or(u32::MAX)
}

// How `run` begins: the body, how many instructions there are, and whether the gate is known to be open until arms are joined.
#[derive(Clone, Copy)]
pub struct Begin {
    pub pause: Pause,
    pub n: usize,
    pub is_open: bool,
}

// The facts of the first n instructions.
fn counted(work: &[u8], facts: &mut [u64], operands: &[u8], registers: &[u8], n: usize)
    ensures { facts.new ≡ r.counted_in n operands.now registers.now facts.old work.now }
{
    let m = n.min(work.len() / 32);
    count_facts::facts(&work[..32 * m], operands, registers, &work[..0], facts);
}

// Whether some block leads back, and some hop may do something.
fn opens(blocks: Blocks, pause: Pause) -> bool
    ensures { result ≡ r.opens_in (body_in pause) blocks.entry.code.now blocks.entry.table.now }
{
    gate::has_back_edge(blocks) && gate::may_thread(blocks, pause::has_pause(pause))
}

// The same of code whose equal arms are joined. It is asked anew only if some were.
fn still_opens(blocks: Blocks, begin: Begin, joined: bool) -> bool
    ensures { (begin.is_open ≡ true → joined ≡ false
        → r.opens_in (body_in begin.pause) blocks.entry.code.now blocks.entry.table.now ≡ true)
        → result ≡ r.opens_in (body_in begin.pause) blocks.entry.code.now blocks.entry.table.now }
{
    begin.is_open && !joined || opens(blocks, begin.pause)
}

// Threads the code: n instructions are in use. Each slice stands by itself, as in `run`; within `run`
// the borrow checker tells nothing of what the three structs held.
fn threaded(
    work: &mut [u8],
    table: &mut [u8],
    kinds: &mut [u8],
    known: &mut [u64],
    copy: &mut [u32],
    facts: &Facts,
    n: usize,
) -> Threaded
    ensures { store work.new table.new kinds.new result
        ≡ thread_in facts.now.table.now (body_in facts.now.pause) facts.now.budget (length known.old) (length copy.old)
        work.old table.old kinds.old n }
{
    let mut space = Space {
        work,
        table,
        top: n,
    };
    let mut added = Added {
        kinds,
        fresh: 0,
        grown: 0,
        edited: false,
    };
    let mut room = Room { known, copy };
    thread::thread(&mut space, &mut added, &mut room, facts)
}

// The Rust's `run` before emit, over n instructions: equal arms, then the gate, the counts and
// threading. Fewer than 6 instructions stay. Each slice stands by itself, since C lends them so. Tried:
// a struct of the three that threading changes (Space, Added and Room), and one made of slices that
// another lent struct holds; the borrow checker then tells nothing of what the slices hold when they
// come back.
pub fn run(
    work: &mut [u8],
    table: &mut [u8],
    kinds: &mut [u8],
    known: &mut [u64],
    copy: &mut [u32],
    facts: &mut [u64],
    operands: &[u8],
    registers: &[u8],
    begin: Begin,
) -> Ran
    ensures { (begin.is_open ≡ true → r.opens_in (body_in begin.pause) work.old table.old ≡ true)
        → r.left work.new table.new kinds.new facts.new result
        ≡ r.ran_in (body_in begin.pause) (length known.old) (length copy.old) operands.now registers.now begin.n
        work.old table.old kinds.old facts.old }
{
    let n = begin.n;
    if n < 6 {
        return Ran {
            joined: false,
            at: still(n),
        };
    }
    let joined = equal_arms::equal_arms(work, table);
    let blocks = Blocks { code: work, table };
    if !still_opens(blocks, begin, joined) {
        return Ran {
            joined,
            at: still(n),
        };
    }
    counted(work, facts, operands, registers, n);
    let facts = Facts {
        table: facts,
        pause: begin.pause,
        budget: budget(n),
    };
    let at = threaded(work, table, kinds, known, copy, &facts, n);
    Ran { joined, at }
}

// A glance at code before its steps: None if no step would change it, else whether the gate of threading is open.
pub fn glance(code: &[u8], table: &[u8], pause: Pause) -> Option<bool>
    ensures none { IfNone result (r.NoStep (body_in pause) code.now table.now) }
    ensures some { IfSome result (λ b. b ≡ r.opens_in (body_in pause) code.now table.now) }
{
    if code.len() / 32 < 6 {
        return None;
    }
    let blocks = Blocks { code, table };
    let looped = gate::has_back_edge(blocks);
    if looped && gate::may_thread(blocks, pause::has_pause(pause)) {
        return Some(true);
    }
    if !equal_arms::none_meet(blocks) {
        return Some(false);
    }
    if looped && gate::has_lengths(code) {
        return Some(false);
    }
    None
}
