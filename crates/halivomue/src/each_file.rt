// A command that answers for each file that is named, or for standard input.
use crate::arguments;
use crate::arguments::{Options, Words};
use files::Unsaid;
use line::Line;
use options::Role;
use replies::list::Part;
use replies::{Ask, Question};
use std::env::Env;
use std::io::{Input, Read};
use std::rt::Files;

// What is asked of each file, and whether its answer has no name in front.
#[derive(Drop)]
struct Asking<'a, R> {
    rt: &'a R,
    ask: Ask,
    bare: bool,
}

impl<R: Env + Files + Input + Print> Asking<'_, R> {
    // Begins the answer in the line that has the file's name.
    fn begin(&self, line: &mut Line<'_>) {
        if self.bare {
            line.clear();
        } else {
            line.put(b": ");
        }
    }

    // The answer for a file that can't be opened or read. The caller has already said why.
    fn say_failed(&self, line: &mut Line<'_>, what: &[u8]) -> Result<bool, Unsaid> {
        self.begin(line);
        line.put(what);
        files::say(self.rt, line.text())?;
        Ok(false)
    }

    fn answer_open(&self, file: &mut impl Read, line: &mut Line<'_>) -> Result<bool, Unsaid> {
        let mut bytes = [0u8; 65537];
        match files::read_whole(file, &mut bytes) {
            Ok(n) => {
                self.begin(line);
                replies::say(self.rt, line, self.ask, &bytes[..n])
            }
            Err(cut) => {
                files::fail(line.text(), cut.why);
                self.say_failed(line, b"cannot be read\n")
            }
        }
    }

    fn answer_input(&self, line: &mut Line<'_>) -> Result<bool, Unsaid> {
        self.answer_open(&mut self.rt.reader(), line)
    }

    fn answer_named(&self, path: &[u8]) -> Result<bool, Unsaid> {
        let mut room = [0u8; quote::ROOM];
        let mut line = Line::new(&mut room);
        quote::put_name(&mut line, path);
        if matches!(path, b"-") {
            return self.answer_input(&mut line);
        }
        match files::open(self.rt, path) {
            Ok(mut file) => self.answer_open(&mut file, &mut line),
            Err(why) => {
                files::fail(line.text(), why);
                self.say_failed(&mut line, b"cannot be opened\n")
            }
        }
    }

    // The line of an argument that is longer than any path.
    fn too_long(&self, i: usize) -> Result<bool, Unsaid> {
        let mut room = [0u8; 80];
        let mut line = Line::new(&mut room);
        let what = b": cannot be opened: longer than a path\n";
        arguments::put_too_long(self.rt, &mut line, i, what);
        files::say(self.rt, line.text())?;
        Ok(false)
    }

    fn answer_argument(&self, i: usize) -> Result<bool, Unsaid> {
        let mut path = io::buffer();
        match self.rt.arg(i, &mut path) {
            Ok(n) => self.answer_named(&path[..n]),
            Err(_) => self.too_long(i),
        }
    }

    fn answer_files(&self) -> Result<bool, Unsaid> {
        let mut accepted = true;
        for (i, word) in Words::new(self.rt) {
            if word.role == Role::Name {
                accepted &= self.answer_argument(i)?;
            }
        }
        Ok(accepted)
    }

    fn answer_unnamed(&self) -> Result<bool, Unsaid> {
        let mut room = [0u8; quote::ROOM];
        let mut line = Line::new(&mut room);
        line.put(b"standard input");
        self.answer_input(&mut line)
    }
}

// Answers for the files that are named, and returns whether all were accepted. Standard input's
// answer has no name in front, nor has the listing of one file.
pub fn answer_all(
    rt: &(impl Env + Files + Input + Print),
    o: &Options,
    question: Question,
) -> Result<bool, Unsaid> {
    let names = o.names.len();
    let asking = Asking {
        rt,
        ask: Ask {
            question,
            words: o.words,
        },
        bare: names == 0 || (names == 1 && matches!(question, Question::List(_))),
    };
    if names == 0 {
        asking.answer_unnamed()
    } else {
        asking.answer_files()
    }
}
