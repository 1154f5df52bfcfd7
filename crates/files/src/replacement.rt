// A file is replaced completely or not at all: the bytes go into a new file in its folder, which is
// flushed and then renamed. If that fails, the new file is removed. Between the two steps another file
// can be replaced.
ghost use Rattle.io.specs.Counts.{IsPrefixLen};

use crate::name;
use line::Line;
use std::fs;
use std::fs::{OpenFile, OpenOptions};
use std::io::{Error, ErrorKind, Write};
use std::random::RandomSource;
use std::rt::Files;

// How much of the file's name the new file's name starts with: the rest still fits in 255 bytes.
const KEPT: usize = 200;

// Room for the new file's name, which is at most 21 bytes longer than a path.
pub const NAME_ROOM: usize = 4128;

// The path, with only the start of its name where that is long.
fn kept(path: &str) -> &str {
    let most = name::name_start(path.as_bytes()).saturating_add(KEPT);
    &path[..path.floor_char_boundary(most)]
}

// Puts a name in the file's folder that no other file is likely to have, and returns its length.
// Where chance fails it is still one that a new file gets only if no other file has it.
fn put_new_name(rt: &impl RandomSource, room: &mut [u8], path: &str) -> usize
    ensures { IsPrefixLen result room.new }
{
    let mut chance = [0u8; 8];
    let _ = rt.fill_bytes(&mut chance);
    let mut line = Line::new(room);
    line.put(kept(path).as_bytes());
    line.put_byte(b'.');
    for b in &chance {
        quote::put_digits(&mut line, *b);
    }
    line.put(b".new");
    line.at
}

fn is_link(rt: &impl Files, path: &str) -> bool {
    fs::symlink_metadata(rt, path).is_ok_and(|found| found.is_symlink())
}

// Whether it is no device, pipe or terminal: these can't be flushed.
fn is_plain(file: &impl OpenFile) -> bool {
    file.sync_all().is_ok()
}

// Whether it is a plain file that the user may write.
fn check_plain(rt: &impl Files, path: &str) -> Result<(), Error> {
    if is_link(rt, path) {
        return Err(Error::other("a symbolic link"));
    }
    let file = OpenOptions::new().read(true).write(true).open(rt, path)?;
    if is_plain(&file) {
        Ok(())
    } else {
        Err(Error::other("not a plain file"))
    }
}

// The same of a file whose name is given as bytes.
pub fn must_be_plain(rt: &impl Files, path: &[u8]) -> Result<(), Error> {
    check_plain(rt, name::text_of(path)?)
}

// Whether a file may be put at the path: there is none, or a plain one that the user may write.
fn may_replace(rt: &impl Files, path: &str) -> Result<(), Error> {
    match check_plain(rt, path) {
        Err(why) if why.kind() == ErrorKind::NotFound => Ok(()),
        found => found,
    }
}

// Writes and flushes a new file, and closes it.
fn fill(mut file: impl Write + OpenFile + Drop, bytes: &[u8]) -> Result<(), Error> {
    file.write_all(bytes)?;
    file.sync_all()
}

fn open_folder<R: Files>(rt: &R, path: &str) -> Result<R::File, Error> {
    fs::open(rt, name::folder_of(path.as_bytes())?)
}

// Flushes the new name to the disk too, if the folder can be read and its file system can do it.
fn flush_folder(rt: &impl Files, path: &str) {
    if let Ok(folder) = open_folder(rt, path) {
        let _ = folder.sync_all();
    }
}

// A new file, filled and flushed, that doesn't have the path yet.
#[derive(Clone, Copy)]
pub struct Staged<'a> {
    name: &'a str,
    path: &'a str,
}

impl Staged<'_> {
    pub fn remove(self, rt: &impl Files) {
        let _ = fs::remove_file(rt, self.name);
    }

    // Gives it the path, or removes it.
    pub fn put_in_place(self, rt: &impl Files) -> Result<(), Error> {
        if let Err(why) = fs::rename(rt, self.name, self.path) {
            self.remove(rt);
            return Err(why);
        }
        flush_folder(rt, self.path);
        Ok(())
    }

    // Gives it the rights of the file that it will replace.
    fn take_rights(self, rt: &impl Files) -> Result<(), Error> {
        let rights = fs::metadata(rt, self.path)?.permissions();
        fs::set_permissions(rt, self.name, rights)
    }
}

fn fill_new(rt: &impl Files, name: &str, bytes: &[u8]) -> Result<(), Error> {
    let file = OpenOptions::new()
        .write(true)
        .create_new(true)
        .open(rt, name)?;
    if let Err(why) = fill(file, bytes) {
        let _ = fs::remove_file(rt, name);
        return Err(why);
    }
    Ok(())
}

// Writes these bytes into a new file in the folder of the path, if a file may be put there. The room
// is for the new file's name.
pub fn stage<'a>(
    rt: &(impl Files + RandomSource),
    room: &'a mut [u8],
    path: &'a [u8],
    bytes: &[u8],
) -> Result<Staged<'a>, Error> {
    let path = name::text_of(path)?;
    may_replace(rt, path)?;
    let length = put_new_name(rt, room, path);
    let name = name::text_of(&room[..length])?;
    fill_new(rt, name, bytes)?;
    Ok(Staged { name, path })
}

// Gives the file at path these bytes. On an error it is as it was.
pub fn replace(rt: &(impl Files + RandomSource), path: &[u8], bytes: &[u8]) -> Result<(), Error> {
    let mut room = [0u8; NAME_ROOM];
    stage(rt, &mut room, path, bytes)?.put_in_place(rt)
}

// The same for a file that is there already: its rights stay.
pub fn update(rt: &(impl Files + RandomSource), path: &[u8], bytes: &[u8]) -> Result<(), Error> {
    let mut room = [0u8; NAME_ROOM];
    let staged = stage(rt, &mut room, path, bytes)?;
    if let Err(why) = staged.take_rights(rt) {
        staged.remove(rt);
        return Err(why);
    }
    staged.put_in_place(rt)
}
