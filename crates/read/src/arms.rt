ghost use Rattle.std.specs.Prelude.{◌≡◌, cond, ◌≤◌, MatchResult};
ghost use Rattle.read.specs.Structure.{numbers as numbersAfter, numbered, tables, is_default};
ghost use Rattle.read.specs.Reading.{answer, unless};
ghost use Rattle.read.specs.Work.{told};
ghost use Rattle.read.specs.Spans.{spanned};

use crate::span::Span;
use crate::{Reason, Refusal};
use records::{DEFAULT_ARM, Record};

// Whether the arm belongs to the table that is expected; the last one must be a default.
#[tactic(auto, unfolding(crate::specs::Structure::numbers))]
fn numbers(due: u32, left: usize, r: Record) -> bool
    ensures { result ≡ numbersAfter (due, left) r }
{
    r.p1 == due && (left != 1 || r.kind == DEFAULT_ARM)
}

fn ends_table(r: Record) -> u32
    ensures { (result ≡ cond (is_default r) 1 0) × (result ≤ 1) }
{
    u32::from(r.kind == DEFAULT_ARM)
}

// How many tables the arms end; the first that is misnumbered or lacks its default is refused.
pub fn numbered_arms(arms: Span) -> Result<u32, Refusal>
    ensures { MatchResult result
        (λ n. (arms.entry.count ≡ numbered (spanned arms.entry)) × (n ≡ tables (spanned arms.entry)))
        (λ e. told e ≡ unless 6 arms.entry.first (numbered (spanned arms.entry)) arms.entry.count (answer 0 0)) }
{
    let mut due = 0;
    for k in 0..arms.count {
        let r = arms.at(k);
        if !numbers(due, arms.count - k, r) {
            return Err(arms.refused(Reason::Table, k));
        }
        due += ends_table(r);
    }
    Ok(due)
}
