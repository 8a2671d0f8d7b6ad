// Calls: the regions handed over and the arguments, and the function that is called.
ghost use Rattle.std.specs.Prelude.{◌≤◌};
ghost use Rattle.resolving.specs.Walks.{Hands, Argues, Sought};

use crate::atoms::atom;
use crate::names::Names;
use draft::command::Command as Item;
use draft::table::Table;
use lexing::bytes::same;
use program::code::Tape;
use program::command::Command;
use scope::command::command_at;
use scope::name::bytes_of;

// The regions that a call hands over, from a position on; the answer is the position behind them.
// A recursion, as the grammar tells the items: a loop would need an invariant that says the same.
pub fn hand(names: &Names<'_>, tape: &mut Tape, position: usize) -> usize
    ensures onward { position ≤ result }
    ensures walks { Hands names.now.table.now names.now.state tape.old.items tape.new.items position result }
{
    match command_at(names.table, position) {
        Some(Item::Handed(name)) => {
            tape.push(Command::Hand(names.region(name)));
            hand(names, tape, position + 1)
        }
        _ => position,
    }
}

// The arguments of a call, from a position on; the answer is the position behind them.
pub fn argue(names: &Names<'_>, tape: &mut Tape, position: usize) -> usize
    ensures onward { position ≤ result }
    ensures walks { Argues names.now.table.now names.now.state tape.old.items tape.new.items position result }
{
    match command_at(names.table, position) {
        Some(Item::Variable(_) | Item::Number(_, _)) => {
            let known = atom(names, position);
            tape.push(Command::Argument(known.operand));
            argue(names, tape, position + 1)
        }
        _ => position,
    }
}

// A function: its index, and the position of its header.
#[derive(Clone, Copy)]
pub struct Callee {
    pub index: usize,
    pub header: usize,
}

// The first function of a name from a position on, where `index` functions stand before it, or behind the last one.
pub fn seek_function(table: &Table, name: &[u8], position: usize, index: usize) -> Callee
    requires { index ≤ position }
    ensures { Sought table.now name.now position index result }
{
    match command_at(table, position) {
        Some(Item::Function(other)) => {
            if same(bytes_of(table, other), name) {
                Callee {
                    index,
                    header: position,
                }
            } else {
                seek_function(table, name, position + 1, index + 1)
            }
        }
        Some(_) => seek_function(table, name, position + 1, index),
        None => Callee {
            index,
            header: position,
        },
    }
}
