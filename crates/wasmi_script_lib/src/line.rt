//! One line of a script.
ghost use Rattle.std.specs.Prelude.{◌≡◌};
ghost use Rattle.std.specs.Option.{option_map};
ghost use Rattle.wasmi_script_lib.specs.inner.Meanings.{meaning_of};
ghost use Rattle.wasmi_script_lib.specs.Requests.{add_of, number_of, parts_of, rename_of, request_of, set_of};

/// What a line of a script asks for.
#[derive(Clone, Copy, Debug, PartialEq, Eq)]
pub enum Command<'a> {
    /// Keep the text.
    Alloc(&'a str),
    /// Find the text of a key.
    Get(usize),
    /// Say where the item of an index lies.
    Place(usize),
    /// Say how much is kept.
    Count,
    /// Keep the text, unless an equal one is kept.
    Dedup(&'a str),
    /// Intern the text.
    Intern(&'a str),
    /// Find the text of a symbol.
    Resolve(usize),
    /// Add an entity of this name and this kind.
    AddEntity(&'a str, &'a str),
    /// Give the entity of a key a property.
    SetProperty(usize, usize),
    /// Rename the kind of the entity of a key.
    RenameKind(usize, &'a str),
    /// Find the entity of a key.
    GetEntity(usize),
}

impl<'a> Command<'a> {
    /// Reads a line, given without its line feed. `None` if it asks for nothing. Constant time, but for
    /// the digits of a number, and for the part before a space.
    pub fn parse(line: &'a str) -> Option<Command<'a>>
        ensures { option_map meaning_of result ≡ request_of line.now }
    {
        if line == "n" {
            return Some(Command::Count);
        }
        let (head, argument) = line.split_at_checked(2)?;
        match head {
            "a " => Some(Command::Alloc(argument)),
            "g " => Some(Command::Get(number(argument)?)),
            "p " => Some(Command::Place(number(argument)?)),
            "d " => Some(Command::Dedup(argument)),
            "i " => Some(Command::Intern(argument)),
            "r " => Some(Command::Resolve(number(argument)?)),
            "e " => add(argument),
            "v " => set(argument),
            "k " => rename(argument),
            "q " => Some(Command::GetEntity(number(argument)?)),
            _ => None,
        }
    }
}

// `NAME KIND`, where the name isn't empty.
fn add(argument: &str) -> Option<Command<'_>>
    ensures { option_map meaning_of result ≡ add_of (parts_of argument.now) }
{
    let (name, kind) = parts(argument)?;
    if name.is_empty() {
        return None;
    }
    Some(Command::AddEntity(name, kind))
}

// `N M`.
fn set(argument: &str) -> Option<Command<'_>>
    ensures { option_map meaning_of result ≡ set_of (parts_of argument.now) }
{
    let (key, property) = parts(argument)?;
    Some(Command::SetProperty(number(key)?, number(property)?))
}

// `N KIND`.
fn rename(argument: &str) -> Option<Command<'_>>
    ensures { option_map meaning_of result ≡ rename_of (parts_of argument.now) }
{
    let (key, kind) = parts(argument)?;
    Some(Command::RenameKind(number(key)?, kind))
}

// What stands before the first space, and what after it.
fn parts(argument: &str) -> Option<(&str, &str)>
    ensures { option_map (λ parts. (parts.0.now, parts.1.now)) result ≡ parts_of argument.now }
{
    argument.split_once(' ')
}

// The number that one or more ASCII digits name. `None` for any other text, so for one with a sign,
// and for a number above `usize::MAX`.
fn number(digits: &str) -> Option<usize>
    ensures { result ≡ number_of digits.now }
{
    if digits.starts_with('+') {
        return None;
    }
    digits.parse().ok()
}
