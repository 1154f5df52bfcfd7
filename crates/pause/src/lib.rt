// The body: the block that a process pauses at, if there is one.
#![tactic(auto)]

ghost use Rattle.std.specs.Prelude.{◌≡◌};
ghost use Rattle.procedure.specs.Lists.{present, holds};
ghost use Rattle.pause.specs.Storage.{body_in};

use inst::BlockId;

// The Rust's Option<usize>: the block that a process pauses at before its first run, the file's
// body.
pub type Pause = Option<BlockId>;

// What the hops are given to read: the table of facts, the body, and how many instructions copying
// may append before it stops.
#[derive(Clone, Copy)]
pub struct Facts<'a> {
    pub table: &'a [u64],
    pub pause: Pause,
    pub budget: u32,
}

// Whether block l is the body.
pub fn is_pause(pause: Pause, l: BlockId) -> bool
    ensures { result ≡ holds (body_in pause) l.0 }
{
    pause == Some(l)
}

// Whether there is a body.
pub fn has_pause(pause: Pause) -> bool
    ensures { result ≡ present (body_in pause) }
{
    pause.is_some()
}
