// The words that the program is started with, one by one: options may be anywhere before a `--`, and
// the first other word is the command. An option's value is the word after it, whatever that is, or
// follows a `=` in the same word.
#![tactic(auto)]

ghost use Rattle.std.specs.Prelude.{◌≡◌, true, ◌||◌, ◌&&◌, length};
ghost use Rattle.options.specs.Options.{Taken, Within, plain_role, is_none, is_command, is_end, has_value, lacks};

#[derive(Clone, Copy, Debug, PartialEq, Eq)]
pub enum Role {
    Command,
    Name,
    Value,
    End,
    Words,
    Status,
    Help,
    Version,
    Only,
    Accounts,
    Unknown,
}

// What a word is, and where its value starts in it, if it has one.
#[derive(Clone, Copy, Debug, PartialEq, Eq)]
pub struct Word {
    pub role: Role,
    pub value: Option<usize>,
}

// The state after the words so far: whether a command came, whether a `--` came, and whether the
// last word needs a value. Before the first word all are false.
#[derive(Clone, Copy, Debug, Default, PartialEq, Eq)]
pub struct Before {
    pub command: bool,
    pub ended: bool,
    pub wants: bool,
}

fn bare(role: Role) -> Word
    ensures role_value { result.role ≡ role }
    ensures value_value { result.value ≡ None }
{
    Word { role, value: None }
}

fn plain(before: Before) -> Word
    ensures role_value { result.role ≡ plain_role before }
    ensures value_value { result.value ≡ None }
{
    bare(if before.command {
        Role::Name
    } else {
        Role::Command
    })
}

// `Unknown` is a role like the others, and no Option: a word that has it is told to the user, with its place. No From: a
// word's role depends on the words before it, and this is only for words that are options.
fn named(name: &[u8]) -> Role
    ensures { is_none result ≡ true }
{
    match name {
        b"--" => Role::End,
        b"--words" => Role::Words,
        b"--only" => Role::Only,
        b"--accounts" => Role::Accounts,
        b"--status" => Role::Status,
        b"--help" => Role::Help,
        b"--version" => Role::Version,
        _ => Role::Unknown,
    }
}

// Whether an option has a value.
fn takes_value(role: Role) -> bool
    ensures { result ≡ has_value role }
{
    matches!(role, Role::Only | Role::Accounts)
}

// A word that starts with a dash and has more than that.
fn option(word: &[u8]) -> Word
    ensures role_value { is_none result.role ≡ true }
    ensures value_in_bounds { Within result.value word.now }
{
    let Some(n) = word.iter().position(|b| *b == b'=') else {
        return bare(named(word));
    };
    let role = named(&word[..n]);
    if takes_value(role) {
        return Word {
            role,
            value: Some(n + 1),
        };
    }
    bare(Role::Unknown)
}

// `-` alone is a file's name.
pub fn word_of(before: Before, word: &[u8]) -> Word
    ensures { Taken before word.now result }
{
    if before.wants {
        return bare(Role::Value);
    }
    match word {
        [b'-', _, ..] if !before.ended => option(word),
        _ => plain(before),
    }
}

// The state after a word.
pub fn after(before: Before, word: Word) -> Before
    ensures command_value { result.command ≡ (before.command || is_command word.role) }
    ensures ended_value { result.ended ≡ (before.ended || is_end word.role) }
    ensures wants_value { result.wants ≡ (has_value word.role && lacks word.value) }
{
    Before {
        command: before.command || word.role == Role::Command,
        ended: before.ended || word.role == Role::End,
        wants: takes_value(word.role) && word.value.is_none(),
    }
}
