// Lists taken apart: the region that they lie in, and what the names of a `case` stand for.
ghost use Rattle.std.specs.Prelude.{◌≤◌};
ghost use Rattle.resolving.specs.Walks.{ListRegion, SplitNames};

use crate::names::Names;
use draft::command::Command as Item;
use draft::table::Table;
use scope::command::command_at;
use scope::state::State;
use scope::types::{Sort, head};

// The slot of the region of a list.
pub fn list_region(names: &Names<'_>, sort: Sort) -> usize
    ensures { ListRegion names.now.table.now names.now.state sort result }
{
    match head(names.table, sort) {
        Some((region, _)) => names.region(region),
        None => 0,
    }
}

// The names for head and tail at a position come into scope; the answer is the position behind them.
pub fn split_names(table: &Table, state: &mut State, sort: Sort, position: usize) -> usize
    ensures onward { position ≤ result }
    ensures walks { SplitNames table.now state.old state.new sort position result }
{
    match command_at(table, position) {
        Some(Item::CaseNames(first, rest)) => {
            let elements = match head(table, sort) {
                Some((_, inner)) => inner,
                None => Sort::Int,
            };
            state.add_variable(first, elements);
            state.add_variable(rest, sort);
            position + 1
        }
        _ => position,
    }
}
