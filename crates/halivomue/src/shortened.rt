// The command `shorten`.
ghost use Rattle.std.specs.Prelude.{IfOk};
ghost use Rattle.io.specs.Counts.{IsPrefixLen};

use crate::accounts_file::{LOCK_ROOM, Words};
use crate::arguments::{Options, Value};
use crate::failure::Failure;
use crate::status::Status;
use crate::{accounts_file, arguments, failure, help};
use line::Line;
use std::env::Env;
use std::io::{Error, Input, Read};
use std::random::RandomSource;
use std::rt::Files;

// What is to be shortened, where the result goes, and whether a refusal is explained in words.
#[derive(Clone, Copy)]
struct Work<'a> {
    bytes: &'a [u8],
    to: &'a [u8],
    words: bool,
}

// Reads IN, and returns how many bytes came.
fn read_open<'a>(
    file: &mut impl Read,
    from: &'a [u8],
    bytes: &mut [u8],
) -> Result<usize, Failure<'a>>
    ensures { IfOk result (λ n. IsPrefixLen n bytes.new) }
{
    files::read_whole(file, bytes).map_err(|cut| Failure {
        name: from,
        what: b": cannot be read",
        why: cut.why,
    })
}

fn read_named<'a>(
    rt: &(impl Files + Input),
    from: &'a [u8],
    bytes: &mut [u8],
) -> Result<usize, Failure<'a>>
    ensures { IfOk result (λ n. IsPrefixLen n bytes.new) }
{
    if matches!(from, b"-") {
        return read_open(&mut rt.reader(), from, bytes);
    }
    let mut file = files::open(rt, from).map_err(|why| Failure {
        name: from,
        what: b": cannot be opened",
        why,
    })?;
    read_open(&mut file, from, bytes)
}

fn unwritten(name: &[u8], why: Error) -> Failure<'_> {
    Failure {
        name,
        what: b": cannot be written",
        why,
    }
}

// Puts the old accounts back where the result couldn't be put in its place.
fn put_back(rt: &(impl Files + RandomSource), file: &[u8], old: &Words) {
    if let Err(why) = accounts_file::save(rt, file, old) {
        let failure = Failure {
            name: file,
            what: b": has the price of a file that was not written",
            why,
        };
        failure.say();
    }
}

// Puts the result into its place, after the accounts: a price that is told is always in the tally.
fn write_billed<'a>(
    rt: &(impl Files + RandomSource),
    work: Work<'a>,
    file: &'a [u8],
    shortened: &[u8],
    old: &Words,
    new: &Words,
) -> Result<(), Failure<'a>> {
    let mut room = [0u8; files::NAME_ROOM];
    let staged = files::stage(rt, &mut room, work.to, shortened).map_err(|why| unwritten(
        work.to, why,
    ))?;
    if let Err(why) = accounts_file::save(rt, file, new) {
        staged.remove(rt);
        return Err(unwritten(file, why));
    }
    staged.put_in_place(rt).map_err(|why| {
        put_back(rt, file, old);
        unwritten(work.to, why)
    })
}

fn write<'a>(
    rt: &(impl Files + RandomSource),
    work: Work<'a>,
    file: Option<&'a [u8]>,
    shortened: &[u8],
    old: &Words,
    new: &Words,
) -> Result<(), Failure<'a>> {
    match file {
        Some(file) => write_billed(rt, work, file, shortened, old, new),
        None => files::replace(rt, work.to, shortened).map_err(|why| unwritten(work.to, why)),
    }
}

// Shortens with these accounts, and writes the result and the accounts' file, if there is one. The
// answer goes into the line, and what comes back is whether the file was accepted.
fn shorten<'a>(
    rt: &(impl Files + RandomSource),
    work: Work<'a>,
    file: Option<&'a [u8]>,
    old: &Words,
    line: &mut Line<'_>,
) -> Result<bool, Failure<'a>> {
    let mut new = *old;
    let mut result = [0u8; replies::list::ROOM];
    match accounts::shorten_for(&mut new, work.bytes, &mut result) {
        Ok(p) => {
            let end = p.shortening.length.min(result.len());
            write(rt, work, file, &result[..end], old, &new)?;
            listing::put_priced(line, p.shortening, p.price);
            Ok(true)
        }
        Err(refusal) => {
            reasons::put_refusal(line, work.words, refusal);
            Ok(false)
        }
    }
}

// The result may be put neither over the accounts nor over their lock.
fn check_places<'a>(
    rt: &impl Files,
    to: &'a [u8],
    file: &[u8],
    lock: &[u8],
) -> Result<(), Failure<'a>> {
    if files::are_same(rt, to, file) {
        return Err(unwritten(to, Error::other("the file of the accounts")));
    }
    if files::are_same(rt, to, lock) {
        return Err(unwritten(to, Error::other("the lock of the accounts")));
    }
    Ok(())
}

fn shorten_locked<'a>(
    rt: &(impl Files + RandomSource),
    work: Work<'a>,
    file: &'a [u8],
    lock: &[u8],
    line: &mut Line<'_>,
) -> Result<bool, Failure<'a>> {
    let mut words: Words = [0; accounts::WORDS];
    accounts_file::read(rt, file, &mut words)?;
    check_places(rt, work.to, file, lock)?;
    shorten(rt, work, Some(file), &words, line)
}

fn shorten_billed<'a>(
    rt: &HostRuntime,
    work: Work<'a>,
    file: &'a [u8],
    lock: &'a [u8],
    line: &mut Line<'_>,
) -> Result<bool, Failure<'a>> {
    files::must_be_plain(rt, file).map_err(|why| Failure {
        name: file,
        what: b": cannot be opened",
        why,
    })?;
    accounts_file::begin(rt, lock)?;
    let answered = shorten_locked(rt, work, file, lock, line);
    accounts_file::end(rt, lock);
    answered
}

// Without accounts nobody is billed: the price is that of new accounts, which are forgotten.
fn shorten_unbilled<'a>(
    rt: &(impl Files + RandomSource),
    work: Work<'a>,
    line: &mut Line<'_>,
) -> Result<bool, Failure<'a>> {
    let mut words: Words = [0; accounts::WORDS];
    accounts::make(&mut words);
    shorten(rt, work, None, &words, line)
}

// Says the answer that the line has, or why there is none.
fn finish(rt: &impl Print, answered: Result<bool, Failure<'_>>, line: &Line<'_>) -> Status {
    match answered {
        Ok(accepted) => Status::from(files::say(rt, line.text()).map(|()| accepted)),
        Err(failure) => failure.say(),
    }
}

fn answer_billed(rt: &HostRuntime, work: Work<'_>, file: &[u8], line: &mut Line<'_>) -> Status {
    let mut room = [0u8; LOCK_ROOM];
    let lock = accounts_file::lock_of(file, &mut room);
    let work = Work {
        bytes: work.bytes,
        to: work.to,
        words: work.words,
    };
    let answered = shorten_billed(rt, work, file, lock, line);
    finish(rt, answered, line)
}

fn answer(
    rt: &HostRuntime,
    work: Work<'_>,
    accounts: Option<&[u8]>,
    line: &mut Line<'_>,
) -> Status {
    match accounts {
        Some(file) => answer_billed(rt, work, file, line),
        None => {
            let answered = shorten_unbilled(rt, work, line);
            finish(rt, answered, line)
        }
    }
}

fn shorten_named(
    rt: &HostRuntime,
    from: &[u8],
    to: &[u8],
    accounts: Option<&[u8]>,
    words: bool,
) -> Status {
    let mut bytes = [0u8; 65537];
    let mut room = [0u8; quote::ROOM];
    let mut line = Line::new(&mut room);
    quote::put_name(&mut line, from);
    line.put(b": ");
    match read_named(rt, from, &mut bytes) {
        Ok(n) => {
            let bytes = &bytes[..n];
            answer(rt, Work { bytes, to, words }, accounts, &mut line)
        }
        Err(failure) => failure.say(),
    }
}

fn shorten_to(
    rt: &HostRuntime,
    from: &[u8],
    i: usize,
    accounts: Option<&[u8]>,
    words: bool,
) -> Status {
    let mut to = io::buffer();
    match rt.arg(i, &mut to) {
        Ok(n) if matches!(&to[..n], b"-") => help::wrong_names(),
        Ok(n) => shorten_named(rt, from, &to[..n], accounts, words),
        Err(_) => failure::too_long(rt, i),
    }
}

// With the file of the accounts, if one is named.
fn shorten_from(rt: &HostRuntime, o: &Options, accounts: Option<&[u8]>) -> Status {
    let [first, second] = o.names.as_slice() else {
        return help::wrong_names();
    };
    let mut from = io::buffer();
    match rt.arg(*first, &mut from) {
        Ok(n) => shorten_to(rt, &from[..n], *second, accounts, o.words),
        Err(_) => failure::too_long(rt, *first),
    }
}

// The name of the file of the accounts is in argument `at`, from this byte on.
fn shorten_with(rt: &HostRuntime, o: &Options, at: usize, from: usize) -> Status {
    let mut room = io::buffer();
    let Ok(n) = rt.arg(at, &mut room) else {
        return failure::too_long(rt, at);
    };
    match &room[from.min(n)..n] {
        b"-" => help::wrong_accounts(),
        file => shorten_from(rt, o, Some(file)),
    }
}

pub fn shorten_file(rt: &HostRuntime, o: &Options) -> Status {
    match o.accounts {
        Value::Given { at, from } => shorten_with(rt, o, at, from),
        _ => shorten_from(rt, o, None),
    }
}
