// Why a command couldn't be done.
use crate::status::Status;
use crate::{arguments, help};
use line::Line;
use std::env::Env;
use std::io::Error;

// What couldn't be done with the file of this name, and why.
pub struct Failure<'a> {
    pub name: &'a [u8],
    pub what: &'static [u8],
    pub why: Error,
}

impl Failure<'_> {
    pub fn say(self) -> Status {
        let Failure { name, what, why } = self;
        let mut room = [0u8; quote::ROOM];
        let mut line = Line::new(&mut room);
        quote::put_name(&mut line, name);
        line.put(what);
        files::fail(line.text(), why);
        Status::Failed
    }
}

// An argument that is longer than any path.
pub fn too_long(rt: &impl Env, i: usize) -> Status {
    let mut room = [0u8; 80];
    let mut line = Line::new(&mut room);
    arguments::put_too_long(rt, &mut line, i, b": File name too long\n");
    io::write_all(help::STDERR, line.text());
    Status::Failed
}
