// Right sides without blocks.
ghost use Rattle.std.specs.Prelude.{◌≡◌, ◌+◌, ◌<◌, ◌≤◌, ◌∷◌};
ghost use Rattle.draft.specs.Items.{Item, an_operation, a_nil, a_cons, a_call, text_of, items, ident, operator as operator_said};
ghost use Rattle.resolving.specs.Walks.{Stands, AtomWalk, RightWalk};

use crate::atoms::atom;
use crate::calls::{argue, hand, seek_function};
use crate::headers::{behind, read_header, type_end};
use crate::names::Names;
use draft::command::{Name, Operator};
use program::code::Tape;
use program::command::Command;
use scope::name::bytes_of;
use scope::types::Sort;

// Where a part starts: a command stands there.
#[derive(Clone, Copy)]
pub struct Start {
    pub position: usize,
    ghost within: { position < 4096 },
}

// Where a part ends, and its type. It does not know where the part began, so each walk says for itself that it goes onward.
#[derive(Clone, Copy)]
pub struct End {
    pub position: usize,
    pub sort: Sort,
}

// An atom as a right side.
pub fn copy(names: &Names<'_>, tape: &mut Tape, start: Start) -> End
    ensures onward { start.position ≤ result.position }
    ensures walks { AtomWalk names.now.table.now names.now.state tape.old.items tape.new.items start.position result }
{
    let known = atom(names, start.position);
    let slot = names.state.variables.len();
    tape.push(Command::Move {
        operand: known.operand,
        slot,
    });
    End {
        position: start.position + 1,
        sort: known.sort,
    }
}

pub fn operate(
    names: &Names<'_>,
    tape: &mut Tape,
    start: Start,
    place: usize,
    operator: Operator,
) -> End
    ensures onward { start.position ≤ result.position }
    ensures walks { Stands names.now.table.now start.position (an_operation place (operator_said operator)) → RightWalk names.now.table.now names.now.state tape.old.items tape.new.items start.position result }
{
    let first = atom(names, start.position + 1);
    let second = atom(names, start.position + 2);
    let slot = names.state.variables.len();
    tape.push(Command::Operate {
        place,
        operator,
        first: first.operand,
        second: second.operand,
        slot,
    });
    End {
        position: start.position + 3,
        sort: Sort::Int,
    }
}

pub fn nil(names: &Names<'_>, tape: &mut Tape, start: Start, place: usize, region: Name) -> End
    ensures onward { start.position ≤ result.position }
    ensures walks { Stands names.now.table.now start.position (a_nil place (ident (text_of names.now.table.now) region)) → RightWalk names.now.table.now names.now.state tape.old.items tape.new.items start.position result }
{
    let slot = names.state.variables.len();
    tape.push(Command::Nil { slot });
    End {
        position: type_end(names.table, start.position + 1),
        sort: Sort::Written(start.position),
    }
}

pub fn cons(names: &Names<'_>, tape: &mut Tape, start: Start, place: usize, region: Name) -> End
    ensures onward { start.position ≤ result.position }
    ensures walks { Stands names.now.table.now start.position (a_cons place (ident (text_of names.now.table.now) region)) → RightWalk names.now.table.now names.now.state tape.old.items tape.new.items start.position result }
{
    let head = atom(names, start.position + 1);
    let tail = atom(names, start.position + 2);
    let target = names.region(region);
    let slot = names.state.variables.len();
    tape.push(Command::Cons {
        place,
        region: target,
        head: head.operand,
        tail: tail.operand,
        slot,
    });
    End {
        position: start.position + 3,
        sort: tail.sort,
    }
}

pub fn call(names: &Names<'_>, tape: &mut Tape, start: Start, place: usize, name: Name) -> End
    ensures onward { start.position ≤ result.position }
    ensures walks { Stands names.now.table.now start.position (a_call place (ident (text_of names.now.table.now) name)) → RightWalk names.now.table.now names.now.state tape.old.items tape.new.items start.position result }
{
    let callee = seek_function(names.table, bytes_of(names.table, name), 0, 0);
    let header = read_header(names.table, callee.header);
    let declared = behind(names.table, callee.header);
    let slot = names.state.variables.len();
    tape.push(Command::Call {
        place,
        function: callee.index,
        slot,
    });
    let handed = hand(names, tape, start.position + 1);
    let end = argue(names, tape, handed);
    End {
        position: end,
        sort: Sort::Called(header.result, declared, start.position + 1),
    }
}
