// Store operations from standard input, one a line, each answered by a line.
use crate::command::{Command, Fault, parse};
use crate::operation::{Answer, Operation, perform_on};
use piles::build::build;
use piles::pile::Pile;
use regions::refusal::Refusal;
use std::alloc::Global;
use std::io::{BufRead, BufReader};
use std::{fmt, io};

// What was done for a line; an `Option` would call the making of a store none.
#[derive(Clone, Copy, PartialEq, Eq, Debug)]
enum Reply {
    Made,
    Performed(Operation, Result<Answer, Refusal>),
}

impl fmt::Display for Reply {
    fn fmt<W: fmt::Write>(&self, f: &mut fmt::Formatter<W>) -> fmt::Result {
        match self {
            Reply::Made => write!(f, "store ok"),
            Reply::Performed(operation, answer) => match answer {
                Ok(Answer::Done) => write!(f, "{operation} ok"),
                Ok(Answer::Length(length)) => write!(f, "{operation} ok {length}"),
                Ok(Answer::Word(word)) => write!(f, "{operation} ok {word}"),
                Err(refusal) => write!(f, "{operation} refused {}", refusal.number()),
            },
        }
    }
}

// Does what a line says to the store that is there; a fault leaves it as it was.
fn perform_line(heap: Global, store: &mut Option<Pile>, text: &str) -> Result<Reply, Fault> {
    match parse(heap, text)? {
        Command::Make(kind, size, quotas) => {
            *store = Some(build(heap, kind, size, &quotas)?);
            Ok(Reply::Made)
        }
        Command::Perform(operation) => {
            let pile = store.as_mut().ok_or(Fault::NoStore)?;
            Ok(Reply::Performed(operation, perform_on(pile, operation)))
        }
    }
}

// Answers each line of standard input.
pub fn serve(rt: &HostRuntime) -> io::Result<()> {
    let mut store = None;
    let lines = BufReader::new(rt.alloc(), rt.stdin())?.lines(rt.alloc());
    for (before, text) in lines.enumerate() {
        match perform_line(rt.alloc(), &mut store, &text?) {
            Ok(reply) => println!(rt; "{reply}")?,
            Err(fault) => println!(rt; "line {}: {fault}", before.saturating_add(1))?,
        }
    }
    Ok(())
}
