// Commands and functions, as they are laid down one after the other.
ghost use Rattle.std.specs.Prelude.{◌≡◌, []};
ghost use Rattle.program.specs.Held.{commands, functions};

use crate::command::{Command, Function};
use rows::row::Row;

// The commands of a program.
pub type Tape = Row<Command, 4_096>;

#[derive(Clone, Copy)]
pub struct Code {
    pub commands: Tape,
    pub functions: Row<Function, 64>,
    pub main: usize,
}

impl Code {
    // No command and no function.
    pub fn new() -> Code
        ensures commands { commands result ≡ [] }
        ensures functions { functions result ≡ [] }
    {
        Code {
            commands: Row::new(Command::Nil { slot: 0 }),
            functions: Row::new(Function {
                start: 0,
                regions: 0,
                params: 0,
            }),
            main: 0,
        }
    }
}
