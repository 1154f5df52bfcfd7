// Reading whole files, replacing whole files, locks, and standard output.
#![tactic(auto)]

mod input;
mod lock;
mod name;
mod reason;
mod replacement;

pub use input::{Cut, open, read_whole};
pub use lock::{make_lock, remove_lock};
pub use name::{are_same, must_be_free};
pub use reason::fail;
pub use replacement::{NAME_ROOM, Staged, must_be_plain, replace, stage, update};
use std::io::ErrorKind;

// Why a text for standard output wasn't written.
#[derive(Clone, Copy, Debug, PartialEq, Eq)]
pub enum Unsaid {
    // Nobody reads on, as where `head` has had enough.
    Closed,
    // The reason is on standard error.
    Failed,
}

// Writes a text to standard output. If that fails, the reason goes to standard error, unless it is
// that nobody reads on.
pub fn say(rt: &impl Print, text: &[u8]) -> Result<(), Unsaid> {
    rt.write_all(text).map_err(|error| {
        if error.kind() == ErrorKind::BrokenPipe {
            return Unsaid::Closed;
        }
        fail(b"standard output", error);
        Unsaid::Failed
    })
}
