// The command `accounts`.
use crate::accounts_file::{LOCK_ROOM, Words};
use crate::arguments::Options;
use crate::failure::Failure;
use crate::status::Status;
use crate::{accounts_file, arguments, failure, help};
use line::Line;
use std::env::Env;
use std::io::Error;
use std::random::RandomSource;
use std::rt::Files;

// Puts new accounts where no file is.
fn put_new(rt: &(impl Files + RandomSource), path: &[u8]) -> Result<(), Error> {
    files::must_be_free(rt, path)?;
    let mut words: Words = [0; accounts::WORDS];
    accounts::make(&mut words);
    let mut saved = [0u8; accounts::SAVED];
    accounts::save(&words, &mut saved);
    files::replace(rt, path, &saved)
}

fn make_locked<'a>(rt: &HostRuntime, path: &'a [u8], lock: &'a [u8]) -> Result<(), Failure<'a>> {
    accounts_file::begin(rt, lock)?;
    let made = put_new(rt, path).map_err(|why| Failure {
        name: path,
        what: b": cannot be made",
        why,
    });
    accounts_file::end(rt, lock);
    made
}

fn make(rt: &HostRuntime, path: &[u8]) -> Status {
    let mut room = [0u8; LOCK_ROOM];
    let lock = accounts_file::lock_of(path, &mut room);
    if let Err(failure) = make_locked(rt, path, lock) {
        return failure.say();
    }
    let mut room = [0u8; quote::ROOM];
    let mut line = Line::new(&mut room);
    quote::put_name(&mut line, path);
    line.put(b": made\n");
    Status::from(files::say(rt, line.text()).map(|()| true))
}

fn show(rt: &(impl Files + Print), path: &[u8]) -> Status {
    let mut words: Words = [0; accounts::WORDS];
    if let Err(failure) = accounts_file::read(rt, path, &mut words) {
        return failure.say();
    }
    let mut room = [0u8; 32];
    let mut line = Line::new(&mut room);
    line.put_numbered(b"tally ", accounts::tally(&words) as usize);
    line.put_byte(b'\n');
    Status::from(files::say(rt, line.text()).map(|()| true))
}

fn act(rt: &HostRuntime, what: &[u8], path: &[u8]) -> Status {
    match what {
        _ if matches!(path, b"-") => help::wrong_action(),
        b"make" => make(rt, path),
        b"show" => show(rt, path),
        _ => help::wrong_action(),
    }
}

pub fn answer(rt: &HostRuntime, o: &Options) -> Status {
    let [first, second] = o.names.as_slice() else {
        return help::wrong_action();
    };
    let mut what = io::buffer();
    let mut path = io::buffer();
    let what = arguments::text(rt, *first, &mut what);
    match rt.arg(*second, &mut path) {
        Ok(n) => act(rt, what, &path[..n]),
        Err(_) => failure::too_long(rt, *second),
    }
}
