// What the program says about itself: on standard output if asked to, else on standard error.
use crate::arguments;
use crate::status::Status;
use files::Unsaid;
use line::Line;
use std::env::Env;

// The descriptor of standard error.
pub const STDERR: i32 = 2;

const USAGE: &[u8] = b"usage: halivomue read|tidy [--words] [--] [FILE..]
       halivomue list [--words] [--only PART] [--] [FILE..]
       halivomue shorten [--words] [--accounts FILE] [--] IN OUT
       halivomue accounts make|show [--] FILE
       halivomue --help|--version
";

pub fn usage() -> Status {
    io::write_all(STDERR, USAGE);
    Status::Usage
}

pub fn version(rt: &impl Print) -> Status {
    Status::from(files::say(rt, b"halivomue 0.6\n").map(|()| true))
}

pub fn help(rt: &impl Print) -> Result<bool, Unsaid> {
    files::say(rt, USAGE)?;
    files::say(
        rt,
        b"  read        of each file: accepted, or refused, number and record
  tidy        of each file: yes, or no and the lowest offending register, or refused
  list        of each file: counts, registers, blocks and code of its shortened form, or refused
  shorten     writes the shortened form of IN to OUT, whole or not at all, and prints counts and price
  accounts    makes a FILE with the tally 0, or shows the tally of a FILE, in cents
  --words     what the numbers mean, beside them
  --only      the part of the listing: counts, registers, blocks or code; also --only=PART
  --accounts  the FILE whose tally the price is added to; also --accounts=FILE
  --status    writes 0, 1 (a file was refused or failed) or 2 (usage) to descriptor 3
  --          what follows are names, even with a dash in front
Without a name the bare answer of standard input; the name - is standard input. OUT is a file.
",
    )?;
    Ok(true)
}

// `shorten` with anything but two names.
pub fn wrong_names() -> Status {
    io::write_all(
        STDERR,
        b"halivomue: shorten takes two names, and the second is a file's
",
    );
    usage()
}

// `accounts` with anything but what to do and one name.
pub fn wrong_action() -> Status {
    io::write_all(
        STDERR,
        b"halivomue: accounts takes make or show, and a file's name
",
    );
    usage()
}

// Says what is wrong with an option's value, or with its command.
pub fn wrong_value(text: &[u8]) -> Status {
    io::write_all(STDERR, text);
    Status::Usage
}

pub fn wrong_accounts() -> Status {
    wrong_value(b"halivomue: --accounts wants a file's name\n")
}

pub fn wrong_part(word: &[u8]) -> Status {
    let mut room = [0u8; 1024];
    let mut line = Line::new(&mut room);
    line.put(b"halivomue: --only wants counts, registers, blocks or code, not '");
    quote::put_name(&mut line, word);
    line.put(b"'\n");
    io::write_all(STDERR, line.text());
    Status::Usage
}

// A word that isn't a command, or isn't an option.
pub fn unknown(what: &[u8], word: &[u8]) -> Status {
    let mut room = [0u8; 1024];
    let mut line = Line::new(&mut room);
    quote::put_name(&mut line, word);
    io::write_all(STDERR, b"halivomue: unknown ");
    io::write_all(STDERR, what);
    io::write_all(STDERR, b" ");
    io::write_all(STDERR, line.text());
    io::write_all(STDERR, b"\n");
    usage()
}

pub fn unknown_option(rt: &impl Env, i: usize) -> Status {
    let mut room = io::buffer();
    unknown(b"option", arguments::text(rt, i, &mut room))
}
