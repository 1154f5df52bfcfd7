// The program: read, tidy, list and shorten, over files and standard input, and accounts.
#![tactic(auto)]

use arguments::{Options, Value};
use replies::Question;
use replies::list::Part;
use status::Status;

mod accounts_command;
mod accounts_file;
mod arguments;
mod each_file;
mod failure;
mod help;
mod shortened;
mod status;

// The handle and the options are two parameters: nearly every use is of one of them, so a struct of both would be no plainer.

fn ask(rt: &HostRuntime, o: &Options, question: Question) -> Status {
    Status::from(each_file::answer_all(rt, o, question))
}

// The part that starts at this byte of argument `at`.
fn list_only(rt: &HostRuntime, o: &Options, at: usize, from: usize) -> Status {
    let mut room = io::buffer();
    let name = arguments::value_text(rt, at, from, &mut room);
    match replies::list::part_named(name) {
        Some(part) => ask(rt, o, Question::List(Some(part))),
        None => help::wrong_part(name),
    }
}

fn list(rt: &HostRuntime, o: &Options) -> Status {
    match o.only {
        Value::Given { at, from } => list_only(rt, o, at, from),
        _ => ask(rt, o, Question::List(Some(Part::All))),
    }
}

// What is said of an option that the command doesn't have.
fn misplaced(o: &Options, command: &[u8]) -> Option<&'static [u8]> {
    if o.only != Value::Nothing && !matches!(command, b"list") {
        return Some(b"halivomue: --only is for list\n");
    }
    if o.accounts != Value::Nothing && !matches!(command, b"shorten") {
        return Some(b"halivomue: --accounts is for shorten\n");
    }
    None
}

fn command(rt: &HostRuntime, o: &Options, at: usize) -> Status {
    let mut room = io::buffer();
    let word = arguments::text(rt, at, &mut room);
    if let Some(text) = misplaced(o, word) {
        return help::wrong_value(text);
    }
    match word {
        b"read" => ask(rt, o, Question::Read),
        b"tidy" => ask(rt, o, Question::Tidy),
        b"list" => list(rt, o),
        b"shorten" => shortened::shorten_file(rt, o),
        b"accounts" => accounts_command::answer(rt, o),
        _ => help::unknown(b"command", word),
    }
}

fn run(rt: &HostRuntime, o: &Options) -> Status {
    if let Some(at) = o.unknown {
        return help::unknown_option(rt, at);
    }
    if o.help {
        return Status::from(help::help(rt));
    }
    if o.version {
        return help::version(rt);
    }
    if o.only == Value::Waiting {
        return help::wrong_value(b"halivomue: --only wants counts, registers, blocks or code\n");
    }
    if o.accounts == Value::Waiting {
        return help::wrong_accounts();
    }
    match o.command {
        Some(at) => command(rt, o, at),
        None => help::usage(),
    }
}

fn main(rt: HostRuntime) {
    let o = arguments::scan(&rt);
    let status = run(&rt, &o);
    if o.status {
        status::tell(status);
    }
}
