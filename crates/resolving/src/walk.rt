// The walk over blocks. A right side with blocks is laid down twice: first to learn where its blocks end, then with their ways out.
ghost use Rattle.std.specs.Prelude.{◌≡◌, ◌<◌, ◌≤◌};
ghost use Rattle.draft.specs.Items.{an_if, a_region, a_case, text_of, items, ident};
ghost use Rattle.resolving.specs.Walks.{Stands, RightWalk, BlockWalk};

use crate::atoms::atom;
use crate::lists::{list_region, split_names};
use crate::names::Names;
use crate::rights::{End, Start, call, cons, copy, nil, operate};
use draft::command::{Command as Item, Name};
use program::code::Tape;
use program::command::{Command, Way};
use scope::command::command_at;
use scope::types::Sort;

// The block at a position, with its way out.
#[cycle(block_choose_open_right_split)]
pub fn block(names: &Names<'_>, tape: &mut Tape, position: usize, way: Way) -> End
    ensures onward { position ≤ result.position }
    ensures walks { BlockWalk names.now.table.now names.now.state tape.old.items tape.new.items position way result }
{
    match command_at(names.table, position) {
        Some(Item::Let(name)) => {
            let value = right(names, tape, position + 1);
            // One copy of the names and no second one beside it: each item of a block keeps its frame.
            let mut more = Names {
                state: names.state,
                ..*names
            };
            more.state.add_variable(name, value.sort);
            block(&more, tape, value.position, way)
        }
        Some(Item::Print(place)) => {
            let known = atom(names, position + 1);
            tape.push(Command::Print {
                place,
                operand: known.operand,
            });
            block(names, tape, position + 2, way)
        }
        Some(Item::Last) => {
            let known = atom(names, position + 1);
            tape.push(Command::Finish {
                operand: known.operand,
                way,
            });
            End {
                position: position + 2,
                sort: known.sort,
            }
        }
        _ => End {
            position,
            sort: Sort::Int,
        },
    }
}

// The right side at a position.
#[cycle(block_choose_open_right_split)]
fn right(names: &Names<'_>, tape: &mut Tape, position: usize) -> End
    ensures onward { position ≤ result.position }
    ensures walks { RightWalk names.now.table.now names.now.state tape.old.items tape.new.items position result }
{
    let Some(command) = command_at(names.table, position) else {
        return End {
            position,
            sort: Sort::Int,
        };
    };
    let start = Start { position };
    match command {
        Item::Operate(place, operator) => operate(names, tape, start, place, operator),
        Item::Nil(place, region) => nil(names, tape, start, place, region),
        Item::Cons(place, region) => cons(names, tape, start, place, region),
        Item::Call(place, name) => call(names, tape, start, place, name),
        Item::If(place) => choose(names, tape, start, place),
        Item::Region(place, name) => open(names, tape, start, place, name),
        Item::Case(place) => split(names, tape, start, place),
        _ => copy(names, tape, start),
    }
}

// An `if` and a `case` stay two functions: the second block of a `case` has names of its own before it and in scope.
#[cycle(block_choose_open_right_split)]
fn choose(names: &Names<'_>, tape: &mut Tape, start: Start, place: usize) -> End
    ensures onward { start.position ≤ result.position }
    ensures walks { Stands names.now.table.now start.position (an_if place) → RightWalk names.now.table.now names.now.state tape.old.items tape.new.items start.position result }
{
    let known = atom(names, start.position + 1);
    let slot = names.state.variables.len();
    let at = tape.len();
    tape.push(Command::If {
        operand: known.operand,
        second: at,
    });
    let middle = block(names, tape, start.position + 2, Way::Return);
    let second = tape.len();
    block(names, tape, middle.position, Way::Return);
    let next = tape.len();
    let way = Way::Leave {
        next,
        slot,
        closes: false,
    };
    tape.truncate(at);
    tape.push(Command::If {
        operand: known.operand,
        second,
    });
    let first = block(names, tape, start.position + 2, way);
    let last = block(names, tape, first.position, way);
    End {
        position: last.position,
        sort: first.sort,
    }
}

#[cycle(block_choose_open_right_split)]
fn open(names: &Names<'_>, tape: &mut Tape, start: Start, place: usize, name: Name) -> End
    ensures onward { start.position ≤ result.position }
    ensures walks { Stands names.now.table.now start.position (a_region place (ident (text_of names.now.table.now) name)) → RightWalk names.now.table.now names.now.state tape.old.items tape.new.items start.position result }
{
    let slot = names.state.variables.len();
    let region = names.state.regions.len();
    let mut inner = Names {
        state: names.state,
        ..*names
    };
    inner.state.add_region(name);
    let at = tape.len();
    tape.push(Command::Open { place, region });
    block(&inner, tape, start.position + 1, Way::Return);
    let next = tape.len();
    let way = Way::Leave {
        next,
        slot,
        closes: true,
    };
    tape.truncate(at);
    tape.push(Command::Open { place, region });
    block(&inner, tape, start.position + 1, way)
}

#[cycle(block_choose_open_right_split)]
fn split(names: &Names<'_>, tape: &mut Tape, start: Start, place: usize) -> End
    ensures onward { start.position ≤ result.position }
    ensures walks { Stands names.now.table.now start.position (a_case place) → RightWalk names.now.table.now names.now.state tape.old.items tape.new.items start.position result }
{
    let known = atom(names, start.position + 1);
    let slot = names.state.variables.len();
    let region = list_region(names, known.sort);
    let at = tape.len();
    tape.push(Command::Case {
        operand: known.operand,
        region,
        second: at,
        head: slot,
    });
    let middle = block(names, tape, start.position + 2, Way::Return);
    let second = tape.len();
    let mut inner = Names {
        state: names.state,
        ..*names
    };
    let other = split_names(names.table, &mut inner.state, known.sort, middle.position);
    block(&inner, tape, other, Way::Return);
    let next = tape.len();
    let way = Way::Leave {
        next,
        slot,
        closes: false,
    };
    tape.truncate(at);
    tape.push(Command::Case {
        operand: known.operand,
        region,
        second,
        head: slot,
    });
    let first = block(names, tape, start.position + 2, way);
    let last = block(&inner, tape, other, way);
    End {
        position: last.position,
        sort: first.sort,
    }
}
