// The arguments: options, the command and the names.
ghost use Rattle.std.specs.Prelude.{◌-◌, ◌^◌};
ghost use Rattle.std.specs.Iterator.{at_most};

use arrayvec::ArrayVec;
use line::Line;
use options::{Before, Role, Word};
use std::env::{Env, FillError};

// The arguments one by one, each with its place.
#[derive(Drop)]
pub struct Words<'a, R> {
    rt: &'a R,
    before: Before,
    at: usize,
}

impl<'a, R: Env> Words<'a, R> {
    pub fn new(rt: &'a R) -> Self {
        Words {
            rt,
            before: Before::default(),
            at: 1,
        }
    }
}

impl<R: Env> Iterator for Words<'_, R> {
    type Item = (usize, Word);

    ghost remaining = { λ s. at_most (2 ^ 64 - 1 - s.at) };

    // A word that is too long for an option is a name or a value.
    fn next(&mut self) -> Option<(usize, Word)> {
        let mut room = io::buffer();
        let place = self.at;
        let length = match self.rt.arg(place, &mut room) {
            Ok(n) => n,
            Err(FillError::NotPresent) => return None,
            Err(_) => 0,
        };
        let word = options::word_of(self.before, &room[..length]);
        self.before = options::after(self.before, word);
        self.at = place.checked_add(1)?;
        Some((place, word))
    }
}

// An option with a value, so far.
#[derive(Clone, Copy, Debug, Default, PartialEq, Eq)]
pub enum Value {
    // The option isn't there.
    #[default]
    Nothing,
    // Its value is still to come.
    Waiting,
    // The argument that holds its value, and the byte where the value starts.
    Given { at: usize, from: usize },
}

impl Value {
    // The value of an option that is argument i.
    fn of(i: usize, word: Word) -> Value {
        word.value
            .map_or(Value::Waiting, |from| Value::Given { at: i, from })
    }

    // Takes argument i as the value, if one is still to come.
    fn fill(&mut self, i: usize) {
        if *self == Value::Waiting {
            *self = Value::Given { at: i, from: 0 };
        }
    }
}

#[derive(Default, Drop)]
pub struct Options {
    pub words: bool,
    pub status: bool,
    pub help: bool,
    pub version: bool,
    pub only: Value,
    pub accounts: Value,
    // The place of the first unknown option.
    pub unknown: Option<usize>,
    // The place of the command.
    pub command: Option<usize>,
    // The places of the first three names.
    pub names: ArrayVec<usize, 3>,
}

impl Options {
    fn add(&mut self, i: usize, word: Word) {
        match word.role {
            Role::Name => drop(self.names.try_push(i)),
            Role::Unknown => self.unknown = self.unknown.or(Some(i)),
            Role::Value => {
                self.only.fill(i);
                self.accounts.fill(i);
            }
            Role::Only => self.only = Value::of(i, word),
            Role::Accounts => self.accounts = Value::of(i, word),
            Role::Command => self.command = Some(i),
            Role::Words => self.words = true,
            Role::Status => self.status = true,
            Role::Help => self.help = true,
            Role::Version => self.version = true,
            Role::End => (),
        }
    }
}

pub fn scan(rt: &impl Env) -> Options {
    let mut o = Options::default();
    for (i, word) in Words::new(rt) {
        o.add(i, word);
    }
    o
}

// Argument i, in this room; nothing of one that is longer than the room.
pub fn text<'a>(rt: &impl Env, i: usize, room: &'a mut [u8]) -> &'a [u8] {
    match rt.arg(i, room) {
        Ok(n) => &room[..n],
        Err(_) => b"",
    }
}

// What a value says, in this room; nothing of an argument that is longer than the room.
pub fn value_text<'a>(rt: &impl Env, at: usize, from: usize, room: &'a mut [u8]) -> &'a [u8] {
    let word = text(rt, at, room);
    &word[from.min(word.len())..]
}

// The number of argument i as the user counts: without the words that the script adds.
pub fn typed(rt: &impl Env, i: usize) -> usize {
    let added = Words::new(rt)
        .take(i.saturating_sub(1))
        .filter(|(_, word)| word.role == Role::Status)
        .count();
    i.saturating_sub(added)
}

// Puts what is said of an argument that is longer than any path.
pub fn put_too_long(rt: &impl Env, line: &mut Line<'_>, i: usize, what: &[u8]) {
    line.put_numbered(b"argument ", typed(rt, i));
    line.put(what);
}
