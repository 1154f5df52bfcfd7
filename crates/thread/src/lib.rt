// Thread: goes over the blocks in order, with at most six hops for each. The functions take four lent
// structs and no struct of them: run::run tells what was tried.
#![tactic(auto)]

ghost use Rattle.std.specs.Prelude.{◌≡◌, ℕ, length};
ghost use Rattle.pause.specs.Storage.{body_in};
ghost use Rattle.arena.specs.Arena.{SameSlices};
ghost use Rattle.hop_br.specs.Kept.{SameKinds};
ghost use Rattle.hop_cond_br.specs.Kept.{SameRoom};
ghost use Rattle.hop_cond_br.specs.Storage as spec;
ghost use Rattle.thread.specs.Storage.{hop_br_in, hop_in, hops_in, thread_in};
ghost use Rattle.thread.specs.Threading.{Edited, at_in, store_in, hopping_to};

use arena::Space;
use ends::End;
use hop_br::Added;
use hop_cond_br::{CondBr, Room, Turn};
use inst::BlockId;
use pause::Facts;
use std::ops::ControlFlow;

// How far threading got: the arena's top, how many instructions and registers were added, whether a
// block was edited. The flag is no Option of the counts, since the C interface has all four.
#[derive(Clone, Copy)]
pub struct Threaded {
    pub top: usize,
    pub grown: u64,
    pub fresh: usize,
    pub edited: bool,
}

// What a hop over a CondBr adds, and whether the next hop follows.
fn turned(t: Turn, added: &mut Added) -> ControlFlow<()>
    ensures { Edited added.old t added.new result }
{
    match t {
        Turn::Stay => ControlFlow::Break(()),
        Turn::Last => {
            added.edited = true;
            ControlFlow::Break(())
        }
        Turn::Next => {
            added.edited = true;
            ControlFlow::Continue(())
        }
    }
}

// A hop of block a, which ends with Br l; whether the next hop follows.
fn hop_br(
    space: &mut Space,
    added: &mut Added,
    facts: &Facts,
    a: BlockId,
    l: BlockId,
) -> ControlFlow<()>
    ensures same { SameSlices space.old space.new }
    ensures same_kinds { SameKinds added.old added.new }
    ensures hopped { (known copy : ℕ) → hopping_to (store_in space.new added.new) result
        ≡ hop_br_in facts.now.table.now (body_in facts.now.pause) facts.now.budget known copy
        (store_in space.old added.old) a.0 l.0 }
{
    let blocks = space.blocks();
    if hop_br::stops(blocks, facts, added.grown, a, l) {
        return ControlFlow::Break(());
    }
    let z = hop_br::join(space, added, facts.table, a, l);
    added.grown += z.n as u64;
    added.edited = true;
    ControlFlow::Continue(())
}

// A hop of block a, which ends with b. The table is lent by `&mut`, as a `Space` has it, and stays.
fn hop_cond_br(
    work: &mut [u8],
    table: &mut [u8],
    room: &mut Room,
    facts: &Facts,
    a: BlockId,
    b: CondBr,
) -> Turn
    ensures table { table.new ≡ table.old }
    ensures same_room { SameRoom room.old room.new }
    ensures turned { spec.turned work.new result
        ≡ spec.turned_in table.old a.0 facts.now.table.now (body_in facts.now.pause) work.old
        b.c.0 b.t.0 b.f.0
        (spec.room_in table.old a.0 work.old room.old.known.now room.old.copy.now) }
{
    hop_cond_br::hop_cond_br(work, table, room, facts, a, b)
}

// A hop of block a.
fn hop(
    space: &mut Space,
    added: &mut Added,
    room: &mut Room,
    facts: &Facts,
    a: BlockId,
) -> ControlFlow<()>
    ensures same { SameSlices space.old space.new }
    ensures same_kinds { SameKinds added.old added.new }
    ensures same_room { SameRoom room.old room.new }
    ensures hopped { hopping_to (store_in space.new added.new) result
        ≡ hop_in facts.now.table.now (body_in facts.now.pause) facts.now.budget
        (length room.old.known.now) (length room.old.copy.now)
        (store_in space.old added.old) a.0 }
{
    let blocks = space.blocks();
    match blocks.end_at(a.0 as usize) {
        End::CondBr(c, t, f) => {
            let b = CondBr { c, t, f };
            let n = hop_cond_br(space.work, space.table, room, facts, a, b);
            turned(n, added)
        }
        End::Br(l) => hop_br(space, added, facts, a, l),
        End::Case(_) | End::Other => ControlFlow::Break(()),
    }
}

// The hops of block a, at most six.
fn hops(space: &mut Space, added: &mut Added, room: &mut Room, facts: &Facts, a: BlockId)
    ensures same { SameSlices space.old space.new }
    ensures same_kinds { SameKinds added.old added.new }
    ensures same_room { SameRoom room.old room.new }
    ensures hopped { store_in space.new added.new
        ≡ hops_in facts.now.table.now (body_in facts.now.pause) facts.now.budget
        (length room.old.known.now) (length room.old.copy.now)
        6 a.0 (store_in space.old added.old) }
{
    'hops: for _ in 0..6u32 {
        let z = hop(space, added, room, facts, a);
        if z.is_break() {
            break 'hops;
        }
    }
}

// Threads the blocks in order, each with its hops: those that a BlockId can name. A `try_from` of
// each number would need a way out of the loop, and is no plainer. What was added before is
// forgotten.
pub fn thread(space: &mut Space, added: &mut Added, room: &mut Room, facts: &Facts) -> Threaded
    ensures same { SameSlices space.old space.new }
    ensures same_kinds { SameKinds added.old added.new }
    ensures same_room { SameRoom room.old room.new }
    ensures at { result ≡ at_in space.new added.new }
    ensures threaded { store_in space.new added.new
        ≡ thread_in facts.now.table.now (body_in facts.now.pause) facts.now.budget
        (length room.old.known.now) (length room.old.copy.now)
        space.old.work.now space.old.table.now added.old.kinds.now space.old.top }
{
    added.fresh = 0;
    added.grown = 0;
    added.edited = false;
    let n = (space.table.len() / 32).min(u32::MAX as usize + 1);
    for a in 0..n {
        hops(space, added, room, facts, BlockId(a as u32));
    }
    Threaded {
        top: space.top,
        grown: added.grown,
        fresh: added.fresh,
        edited: added.edited,
    }
}
