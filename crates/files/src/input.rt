ghost use Rattle.std.specs.Prelude.{◌<◌, length, take, IfOk, MatchResult};
ghost use Rattle.std.specs.Io.KnownBytes.{Consumes, IsAtEnd};
ghost use Rattle.io.specs.Counts.{IsPrefixLen};

use crate::name;
use std::fs;
use std::io::{Error, Read};
use std::rt::Files;

// Why the reading ended early, and how many bytes came before.
#[derive(Clone, Copy)]
pub struct Cut {
    pub why: Error,
    pub length: usize,
}

// Opens a file for reading.
pub fn open<R: Files>(rt: &R, path: &[u8]) -> Result<R::File, Error> {
    match name::text_of(path) {
        Ok(text) => fs::open(rt, text),
        Err(why) => {
            name::find(rt, path)?;
            Err(why)
        }
    }
}

// Reads until the buffer is full or the input ends, and returns how many bytes came.
pub fn read_whole<R: Read>(reader: &mut R, buf: &mut [u8]) -> Result<usize, Cut>
    ensures in_bounds { MatchResult result (λ n. IsPrefixLen n buf.new) (λ cut. IsPrefixLen cut.length buf.new) }
    ensures bytes { MatchResult result
        (λ n. Consumes (R.remaining reader.old) (R.remaining reader.new) (take n buf.new))
        (λ cut. Consumes (R.remaining reader.old) (R.remaining reader.new) (take cut.length buf.new)) }
    ensures whole { IfOk result (λ n. n < length buf.new → IsAtEnd (R.remaining reader.new)) }
{
    let mut n = 0;
    // Each turn adds what was read, so `n` is no index that a `for` could count; and `read_exact` doesn't say how many
    // bytes came.
    while n < buf.len() {
        match reader.read(&mut buf[n..]) {
            Err(why) => return Err(Cut { why, length: n }),
            Ok(0) => return Ok(n),
            Ok(more) => n += more,
        }
    }
    Ok(n)
}
