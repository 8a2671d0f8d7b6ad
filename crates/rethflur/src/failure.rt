// Why a command ends with status 1.
use lexing::fault::Fault;
use std::alloc::{AllocError, AllocFailed};
use std::{fmt, io};

#[derive(Drop)]
pub(crate) enum Failure {
    // The script fails a question: shown with its line by whoever has the script, so that its number alone is said here.
    Refused(Fault),
    UnknownWord(String),
    TooManyWords(String),
    NoFile(String, io::Error),
    Stream(io::Error),
    Memory,
}

impl From<Fault> for Failure {
    fn from(fault: Fault) -> Failure {
        Failure::Refused(fault)
    }
}

impl From<io::Error> for Failure {
    fn from(e: io::Error) -> Failure {
        Failure::Stream(e)
    }
}

impl From<AllocError> for Failure {
    fn from(_: AllocError) -> Failure {
        Failure::Memory
    }
}

impl<T: Drop> From<AllocFailed<T>> for Failure {
    fn from(_: AllocFailed<T>) -> Failure {
        Failure::Memory
    }
}

impl fmt::Display for Failure {
    fn fmt<W: fmt::Write>(&self, f: &mut fmt::Formatter<W>) -> fmt::Result {
        match self {
            Failure::Refused(fault) => write!(f, "refused {}", fault.question.number()),
            Failure::UnknownWord(word) => write!(
                f,
                "unknown command '{word}'; 'rethflur --help' lists the commands"
            ),
            Failure::TooManyWords(word) => write!(
                f,
                "unexpected word '{word}'; 'rethflur --help' shows how to call it"
            ),
            Failure::NoFile(name, e) => write!(f, "cannot read '{name}': {e}"),
            Failure::Stream(e) => write!(f, "{e}"),
            Failure::Memory => write!(f, "out of memory"),
        }
    }
}
