// The file that holds accounts, and its lock: who changes the file makes another one of its name, with
// `.lock` behind it, and removes that one at the end.
use crate::failure::Failure;
use line::Line;
use std::io::Error;
use std::process;
use std::random::RandomSource;
use std::rt::Files;

// The words of accounts.
pub type Words = [u32; accounts::WORDS];

// The most that a name and `.lock` take.
pub const LOCK_ROOM: usize = 4128;

// Puts the name of a file's lock into the room.
pub fn lock_of<'a>(path: &[u8], room: &'a mut [u8]) -> &'a [u8] {
    let mut line = Line::new(room);
    line.put(path);
    line.put(b".lock");
    let length = line.at;
    &room[..length]
}

// Fills the words from the file.
pub fn read<'a>(rt: &impl Files, path: &'a [u8], words: &mut Words) -> Result<(), Failure<'a>> {
    let mut saved = [0u8; accounts::SAVED + 1];
    let mut file = files::open(rt, path).map_err(|why| Failure {
        name: path,
        what: b": cannot be opened",
        why,
    })?;
    let n = files::read_whole(&mut file, &mut saved).map_err(|cut| Failure {
        name: path,
        what: b": cannot be read",
        why: cut.why,
    })?;
    if accounts::load(words, &saved[..n]) {
        return Ok(());
    }
    Err(Failure {
        name: path,
        what: b": damaged",
        why: Error::other("these are not the bytes of saved accounts"),
    })
}

// Puts the words into the file, which keeps its rights.
pub fn save(rt: &(impl Files + RandomSource), path: &[u8], words: &Words) -> Result<(), Error> {
    let mut saved = [0u8; accounts::SAVED];
    accounts::save(words, &mut saved);
    files::update(rt, path, &saved)
}

// Makes the lock.
pub fn begin<'a>(rt: &HostRuntime, lock: &'a [u8]) -> Result<(), Failure<'a>> {
    let process = process::id(rt.process());
    files::make_lock(rt, lock, process).map_err(|why| Failure {
        name: lock,
        what: b": cannot be made",
        why,
    })
}

// Removes the lock. If that fails, it is told, and what was done under the lock stays.
pub fn end(rt: &impl Files, lock: &[u8]) {
    if let Err(why) = files::remove_lock(rt, lock) {
        let failure = Failure {
            name: lock,
            what: b": cannot be removed",
            why,
        };
        failure.say();
    }
}
