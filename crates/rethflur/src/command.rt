// The words of the command line.
use crate::failure::Failure;
use std::env;

#[derive(Drop)]
pub(crate) enum Command {
    Help,
    Tokens(Option<String>),
    Check(Option<String>),
    Batch,
    Store,
}

// The command that the words say; none at all ask for help.
pub(crate) fn parse(rt: &HostRuntime) -> Result<Command, Failure> {
    let mut words = env::args(rt)?;
    let _program = words.next();
    let Some(word) = words.next() else {
        return Ok(Command::Help);
    };
    let file = words.next();
    if let Some(extra) = words.next() {
        return Err(Failure::TooManyWords(extra));
    }
    match word.as_str() {
        "tokens" => Ok(Command::Tokens(file)),
        "check" => Ok(Command::Check(file)),
        "batch" => alone(Command::Batch, file),
        "store" => alone(Command::Store, file),
        "--help" | "-h" | "help" => alone(Command::Help, file),
        _ => Err(Failure::UnknownWord(word)),
    }
}

// A command that takes no word.
fn alone(command: Command, extra: Option<String>) -> Result<Command, Failure> {
    match extra {
        Some(word) => Err(Failure::TooManyWords(word)),
        None => Ok(command),
    }
}
