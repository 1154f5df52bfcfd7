// What the machine computes with words: comparisons, Booleans, choices.
#![tactic(auto)]

ghost use Rattle.std.specs.Prelude.{◌≡◌};
ghost use Rattle.word.specs.Word.{choose as chosen, signed as signed_of, ordered as orderedOf, compares as comparesOf, tests as testsOf};

use inst::{BoolOp, CmpOp};

// The bit of a word that says whether it is negative: 2^63.
const SIGN: u64 = 0x8000_0000_0000_0000;

// The signed order of words is the order of these. A cast to i64 is no plainer: the definition counts words up from the
// least, and has no negative numbers.
fn signed(x: u64) -> u64
    ensures { result ≡ signed_of x }
{
    x.wrapping_add(SIGN)
}

fn ordered(op: CmpOp, x: u64, y: u64) -> bool
    ensures { result ≡ orderedOf op x y }
{
    match op {
        CmpOp::Eq => x == y,
        CmpOp::Ne => x != y,
        CmpOp::Lt => x < y,
        CmpOp::Le => x <= y,
        CmpOp::Gt => y < x,
        CmpOp::Ge => y <= x,
    }
}

// Cmp of two words: 1 or 0 by their signed order. Nothing depends yet on the kinds of their registers.
// By number: a RegTy would take fewer values than callers may give now.
#[tactic(auto, unfolding(crate::specs::Word::compares))]
pub fn compares(kind: u32, other: u32, op: CmpOp, x: u64, y: u64) -> u64
    ensures { result ≡ comparesOf kind other op x y }
{
    u64::from(ordered(op, signed(x), signed(y)))
}

// Select: the first of two words if c isn't 0, else the second.
pub fn choose(c: u64, a: u64, b: u64) -> u64
    ensures { result ≡ chosen c a b }
{
    if c == 0 { b } else { a }
}

// Bool of two words, each tested against 0: 1 or 0. Not reads only the first.
pub fn tests(op: BoolOp, x: u64, y: u64) -> u64
    ensures { result ≡ testsOf op x y }
{
    match op {
        BoolOp::And => u64::from(x != 0 && y != 0),
        BoolOp::Or => u64::from(x != 0 || y != 0),
        BoolOp::Xor => u64::from((x != 0) != (y != 0)),
        BoolOp::Not => u64::from(x == 0),
    }
}
