// The search for the blocks that one leads to: the step that Tidy and Emit share.
#![tactic(auto)]

ghost use Rattle.std.specs.Prelude.{◌≡◌, [], IfSome, IfNone};
ghost use Rattle.search.specs.Search.{Slotted, search_of, pushed, started, with_block, on_top};

use arrayvec::ArrayVec;
use inst::BlockId;
use std::marker::Model;

// Marks of n blocks, and a stack of the blocks whose targets are still to be pushed: numbers, as the definitions' stack
// has them, since of BlockIds each clause would map them.
// Document 01 has an array of 160 marks, so a count of those in use stands beside it.
#[derive(Drop)]
pub struct Search {
    n: usize,
    seen: [bool; 160],
    stack: ArrayVec<u32, 160>,
}

impl Model for Search {
    ghost use Rattle.search.specs.Search.{State, Sized};

    ghost Value = { State };

    ghost view = { λ s. record { n = s.n; found = record { seen = s.seen; stack = s.stack.items } } };

    ghost invariant = { λ s. Sized s.n s.seen s.stack.items };
}

impl Search {
    // A search among the first n blocks, at most 160: none is marked.
    #[tactic(auto, using(crate::proofs::Laws::sized_start), unfolding(crate::specs::Search::clear))]
    pub fn new(n: usize) -> Search
        ensures { result ≡ started n }
    {
        Search {
            n: usize::min(n, 160),
            seen: [false; 160],
            stack: ArrayVec::new(),
        }
    }

    // Marks a block and pushes it, if it is one of the n blocks and not marked yet.
    #[tactic(auto, unfolding(crate::specs::Search::pushed))]
    pub fn push(&mut self, b: BlockId)
        ensures { self.new ≡ with_block self.old b.0 }
    {
        let at = b.0 as usize;
        if at < self.n && !self.seen[at] {
            self.seen[at] = true;
            self.stack.push(b.0);
        }
    }

    // Takes the block that was pushed last.
    pub fn pop(&mut self) -> Option<BlockId>
        ensures some { IfSome result (λ b. self.old ≡ on_top self.new b.0) }
        ensures none { IfNone result (self.old.found.stack ≡ []) }
        ensures kept { IfNone result (self.new ≡ self.old) }
    {
        Some(BlockId(self.stack.pop()?))
    }

    // The marks.
    pub fn marks(&self) -> &[bool; 160]
        ensures { result.now ≡ self.now.found.seen }
    {
        &self.seen
    }
}

// The same step over two arrays, whatever they hold: marks a block and pushes it, if it is one of the nb blocks and not marked yet, and
// there is room. The result is how many places of the stack are taken. The stack and its top apart: a struct with an invariant of
// both is `Search`.
pub fn push(
    seen: &mut [bool; 160],
    stack: &mut [u32; 160],
    top: usize,
    nb: usize,
    b: BlockId,
) -> usize
    ensures sized { Slotted nb seen.old stack.old top → Slotted nb seen.new stack.new result }
    ensures result_after { Slotted nb seen.old stack.old top
        → search_of seen.new stack.new result ≡ pushed nb (search_of seen.old stack.old top) b.0 }
{
    let at = b.0 as usize;
    if at >= usize::min(nb, 160) || seen[at] || top >= 160 {
        return top;
    }
    seen[at] = true;
    stack[top] = b.0;
    top + 1
}
