// The question about a file, and the answer as it is written to standard output.
#![tactic(auto)]

ghost use Rattle.replies.specs.Kept.{SameText};

mod answers;
pub mod list;

use files::Unsaid;
use line::Line;
use list::Part;

#[derive(Clone, Copy, Debug, PartialEq, Eq)]
pub enum Question {
    Read,
    Tidy,
    // `None` is the part of a name that no part has.
    List(Option<Part>),
}

// The question, and whether numbers are explained in words.
#[derive(Clone, Copy, Debug, PartialEq, Eq)]
pub struct Ask {
    pub question: Question,
    pub words: bool,
}

// Writes the answer, whose first line already has its start, and returns whether the file was
// accepted.
#[tactic(auto, using(crate::proofs::Laws::ended_keeps))]
pub fn say(rt: &impl Print, line: &mut Line<'_>, ask: Ask, bytes: &[u8]) -> Result<bool, Unsaid>
    ensures { SameText line.old line.new }
{
    let accepted = match ask.question {
        Question::Read => answers::put_reading(line, ask.words, bytes),
        Question::Tidy => answers::put_tidiness(line, ask.words, bytes),
        Question::List(part) => return list::say(rt, line, part, ask.words, bytes),
    };
    files::say(rt, line.text())?;
    Ok(accepted)
}
