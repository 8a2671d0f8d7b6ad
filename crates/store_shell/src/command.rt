// A line of text as a command.
use crate::operation::Operation;
use piles::build::Kind;
use std::alloc::{AllocError, AllocFailed, Global};
use std::fmt;
use std::str::FromStr;

// Why a line is not done.
#[derive(Clone, Copy, PartialEq, Eq, Debug)]
pub enum Fault {
    NoCommand,
    NotANumber,
    TooFew,
    TooMany,
    NoKind,
    NoQuota,
    NoMemory,
    NoStore,
}

impl fmt::Display for Fault {
    fn fmt<W: fmt::Write>(&self, f: &mut fmt::Formatter<W>) -> fmt::Result {
        f.write_str(match self {
            Fault::NoCommand => "the commands are store, open, put, get, close and clear",
            Fault::NotANumber => "this number is not an unsigned decimal, or too large",
            Fault::TooFew => "a number is missing",
            Fault::TooMany => "there is more than the command takes",
            Fault::NoKind => "a store is `arena` or `pages`",
            Fault::NoQuota => "a size is followed by `quota` and a number, any number of times",
            Fault::NoMemory => "there is no memory for this",
            Fault::NoStore => "there is no store yet",
        })
    }
}

impl From<AllocError> for Fault {
    fn from(_: AllocError) -> Fault {
        Fault::NoMemory
    }
}

impl<T: Drop> From<AllocFailed<T>> for Fault {
    fn from(_: AllocFailed<T>) -> Fault {
        Fault::NoMemory
    }
}

#[derive(Drop)]
pub enum Command {
    // A new store: its kind, its size, and its quotas, the innermost first.
    Make(Kind, usize, Vec<usize>),
    Perform(Operation),
}

// A word as a number.
fn number<N: FromStr>(word: Option<&&str>) -> Result<N, Fault>
where
    N::Err: Drop,
{
    word.ok_or(Fault::TooFew)?
        .parse::<N>()
        .map_err(|_| Fault::NotANumber)
}

// What to put, by the words behind `put`.
fn put(words: &[&str]) -> Result<Operation, Fault> {
    let position = number(words.get(1))?;
    let first = number(words.get(2))?;
    Ok(Operation::Put(position, first, number(words.get(3))?))
}

// What to get, by the words behind `get`.
fn get(words: &[&str]) -> Result<Operation, Fault> {
    let position = number(words.get(1))?;
    Ok(Operation::Get(position, number(words.get(2))?))
}

// The operation that a command's name and the words behind it say.
fn operation(words: &[&str]) -> Result<Operation, Fault> {
    let (operation, takes) = match words.first() {
        Some(&"open") => (Operation::Open, 1),
        Some(&"close") => (Operation::Close, 1),
        Some(&"clear") => (Operation::Clear, 1),
        Some(&"put") => (put(words)?, 4),
        Some(&"get") => (get(words)?, 3),
        _ => return Err(Fault::NoCommand),
    };
    if words.len() > takes {
        return Err(Fault::TooMany);
    }
    Ok(operation)
}

// The quotas behind a store's size.
fn quotas(heap: Global, words: &[&str]) -> Result<Vec<usize>, Fault> {
    let mut found = Vec::new(heap);
    for pair in words.chunks(2) {
        if pair.first() != Some(&"quota") {
            return Err(Fault::NoQuota);
        }
        found.push(number(pair.get(1))?)?;
    }
    Ok(found)
}

// The store that the words behind `store` say.
fn make(heap: Global, words: &[&str]) -> Result<Command, Fault> {
    let [kind, size, behind @ ..] = words else {
        return Err(Fault::TooFew);
    };
    // Not a `FromStr` of the kind: the words are this language's, and so is the fault.
    let kind = match *kind {
        "arena" => Kind::Words,
        "pages" => Kind::Pages,
        _ => return Err(Fault::NoKind),
    };
    let size = number(Some(size))?;
    Ok(Command::Make(kind, size, quotas(heap, behind)?))
}

// The command that a line says.
pub(crate) fn parse(heap: Global, line: &str) -> Result<Command, Fault> {
    let words: Vec<&str> = line.split_ascii_whitespace().collect(heap)?;
    match words.as_slice() {
        ["store", behind @ ..] => make(heap, behind),
        words => Ok(Command::Perform(operation(words)?)),
    }
}
