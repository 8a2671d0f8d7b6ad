// Headers: what they bring into scope, and where the result's type and the block stand.
ghost use Rattle.std.specs.Prelude.{◌≤◌};
ghost use Rattle.resolving.specs.Walks.{OneBehind, TypeBehind, RegionsIn, ParamsIn, HeaderWalk};

use draft::command::Command as Item;
use draft::table::Table;
use scope::command::command_at;
use scope::state::State;
use scope::types::Sort;

// The position behind the command at a position.
// Positions are handed on, not spots: sorts keep them, and of a spot each clause would have to say that it is of the same table.
pub fn behind(table: &Table, position: usize) -> usize
    ensures onward { position ≤ result }
    ensures walks { OneBehind table.now position result }
{
    match command_at(table, position) {
        Some(_) => position + 1,
        None => position,
    }
}

// The position behind the type at a position.
pub fn type_end(table: &Table, position: usize) -> usize
    ensures onward { position ≤ result }
    ensures walks { TypeBehind table.now position result }
{
    match command_at(table, position) {
        Some(Item::List(_)) => type_end(table, position + 1),
        Some(_) => position + 1,
        None => position,
    }
}

// The regions of a header come into scope, from a position on; the answer is the position behind them.
pub fn regions(table: &Table, state: &mut State, position: usize) -> usize
    ensures { RegionsIn table.now state.old state.new position result }
{
    match command_at(table, position) {
        Some(Item::HeaderRegion(name)) => {
            state.add_region(name);
            regions(table, state, position + 1)
        }
        _ => position,
    }
}

// Not one with `regions`: a parameter has a type behind it, which is passed over.
//
// The parameters of a header come into scope, from a position on; the answer is the position behind them.
pub fn params(table: &Table, state: &mut State, position: usize) -> usize
    ensures { ParamsIn table.now state.old state.new position result }
{
    match command_at(table, position) {
        Some(Item::Parameter(name)) => {
            state.add_variable(name, Sort::Written(position + 1));
            params(table, state, type_end(table, position + 1))
        }
        _ => position,
    }
}

// A header: what it brings into scope, and the positions of the result's type and of the block.
#[derive(Clone, Copy)]
pub struct Header {
    pub state: State,
    pub result: usize,
    pub body: usize,
}

// The header at a position.
pub fn read_header(table: &Table, position: usize) -> Header
    ensures { HeaderWalk table.now position result }
{
    let mut state = State::new();
    let opened = regions(table, &mut state, behind(table, position));
    let bound = params(table, &mut state, opened);
    let result = behind(table, bound);
    Header {
        state,
        result,
        body: type_end(table, result),
    }
}
