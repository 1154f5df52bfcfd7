ghost use Rattle.std.specs.Prelude.{◌≡◌};
ghost use Rattle.steps.specs.Note.{bool_of_one, bool_of};

use inst::BoolOp;

// Not, of one known word.
fn one_of(op: BoolOp, v: u64) -> Option<u64>
    ensures { result ≡ bool_of_one op v }
{
    match op {
        BoolOp::And | BoolOp::Or | BoolOp::Xor => None,
        BoolOp::Not => Some(word::tests(BoolOp::Not, v, 0)),
    }
}

// Bool, from what is known of its operands.
pub fn bool_of(op: BoolOp, x: Option<u64>, y: Option<u64>) -> Option<u64>
    ensures { result ≡ bool_of op x y }
{
    let v = x?;
    match y {
        Some(w) => Some(word::tests(op, v, w)),
        None => one_of(op, v),
    }
}
