// A lock is a file that only one run can make: it has the lock until it removes the file.
use crate::name;
use line::Line;
use std::fs;
use std::fs::OpenOptions;
use std::io::{Error, ErrorKind, Write};
use std::rt::Files;

// Why the file couldn't be made: who finds a lock is told what to do.
fn reason(why: Error) -> Error {
    if why.kind() == ErrorKind::AlreadyExists {
        return Error::other("another run has made it; if that run was killed, remove the file");
    }
    why
}

// Writes the number of the process that has the lock, for the user to look for.
fn fill(mut file: impl Write + Drop, process: u32) -> Result<(), Error> {
    let mut room = [0u8; 32];
    let mut line = Line::new(&mut room);
    line.put_numbered(b"process ", process as usize);
    line.put_byte(b'\n');
    file.write_all(line.text())
}

// Makes the file of a lock.
pub fn make_lock(rt: &impl Files, path: &[u8], process: u32) -> Result<(), Error> {
    let path = name::text_of(path)?;
    let file = OpenOptions::new()
        .write(true)
        .create_new(true)
        .open(rt, path)
        .map_err(reason)?;
    if let Err(why) = fill(file, process) {
        let _ = fs::remove_file(rt, path);
        return Err(why);
    }
    Ok(())
}

// Removes it.
pub fn remove_lock(rt: &impl Files, path: &[u8]) -> Result<(), Error> {
    fs::remove_file(rt, name::text_of(path)?)
}
