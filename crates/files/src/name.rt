// Files' names as std takes them, which is as text.
ghost use Rattle.io.specs.Counts.{IsPrefixLen};

use std::fs;
use std::fs::Metadata;
use std::io::{Error, ErrorKind, Read};
use std::os::unix::fs::MetadataExt;
use std::rt::Files;

// The system's numbers for "No such file or directory" and "File exists".
const ENOENT: i32 = 2;

const EEXIST: i32 = 17;

// A name that is not UTF-8 can't be passed on.
pub fn text_of(path: &[u8]) -> Result<&str, Error> {
    str::from_utf8(path).map_err(|_| Error::new(
        ErrorKind::InvalidFilename,
        "the name is not UTF-8",
    ))
}

// Where the name after the last slash starts.
pub fn name_start(path: &[u8]) -> usize
    ensures { IsPrefixLen result path.now }
{
    path.iter().rposition(|b| *b == b'/').map_or(0, |i| i + 1)
}

// The folder that the name after the last slash is in.
pub fn folder_of(path: &[u8]) -> Result<&str, Error> {
    let start = name_start(path);
    if start == 0 {
        return Ok(".");
    }
    text_of(&path[..start])
}

// Whether one of the names, each ended by a NUL, is this one.
fn is_among(names: &[u8], name: &[u8]) -> bool {
    names.split(|byte| *byte == 0).any(|found| found == name)
}

// Whether one of the folder's names that are still to be read is this one. A loop has to end; no folder
// has so many parts.
fn is_in(folder: &mut impl Read, name: &[u8]) -> Result<bool, Error> {
    let mut names = [0u8; 4096];
    for _ in 0..usize::MAX {
        let n = folder.read(&mut names)?;
        if n == 0 {
            return Ok(false);
        }
        if is_among(&names[..n], name) {
            return Ok(true);
        }
    }
    Ok(false)
}

// Looks in its folder for a name that can't be passed on. If it isn't there, the error is the one
// that the system would give.
pub fn find(rt: &impl Files, path: &[u8]) -> Result<(), Error> {
    let mut folder = rt.open_dir(folder_of(path)?)?;
    if is_in(&mut folder, &path[name_start(path)..])? {
        return Ok(());
    }
    Err(Error::from_raw_os_error(ENOENT))
}

// Whether no file has the name.
pub fn must_be_free(rt: &impl Files, path: &[u8]) -> Result<(), Error> {
    match fs::symlink_metadata(rt, text_of(path)?) {
        Ok(_) => Err(Error::from_raw_os_error(EEXIST)),
        Err(why) if why.kind() == ErrorKind::NotFound => Ok(()),
        Err(why) => Err(why),
    }
}

fn about(rt: &impl Files, path: &[u8]) -> Result<Metadata, Error> {
    fs::metadata(rt, text_of(path)?)
}

// Whether both names are of one file, however they are written.
pub fn are_same(rt: &impl Files, one: &[u8], other: &[u8]) -> bool {
    match (about(rt, one), about(rt, other)) {
        (Ok(a), Ok(b)) => a.dev() == b.dev() && a.ino() == b.ino(),
        _ => false,
    }
}
