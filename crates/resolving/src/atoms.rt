// Atoms: what each comes to, and its type.
ghost use Rattle.resolving.specs.Walks.{AtomKnown, AtomSort};

use crate::names::Names;
use draft::command::Command;
use program::command::Operand;
use scope::command::command_at;
use scope::state::State;
use scope::types::Sort;

// An atom's operand and its type.
#[derive(Clone, Copy)]
pub struct Known {
    pub operand: Operand,
    pub sort: Sort,
}

// The atom at a position.
pub fn atom(names: &Names<'_>, position: usize) -> Known
    ensures { AtomKnown names.now.table.now names.now.state position result }
{
    match command_at(names.table, position) {
        Some(Command::Variable(name)) => {
            let slot = names.variable(name);
            Known {
                operand: Operand::Slot(slot),
                sort: sort_in(&names.state, slot),
            }
        }
        Some(Command::Number(_, number)) => Known {
            operand: Operand::Number(number),
            sort: Sort::Int,
        },
        _ => Known {
            operand: Operand::Number(0),
            sort: Sort::Int,
        },
    }
}

// The type of the variable in a slot.
fn sort_in(state: &State, slot: usize) -> Sort
    ensures { AtomSort state.now slot result }
{
    match state.variables.item(slot) {
        Some(variable) => variable.sort,
        None => Sort::Int,
    }
}
