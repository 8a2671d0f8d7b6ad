// Blocks, and the right sides that hold blocks.
ghost use Rattle.std.specs.Prelude.{◌≡◌, IfOk};
ghost use Rattle.draft.specs.Items.{text_of, items, ident};
ghost use Rattle.scope.specs.Words.{type_of};
ghost use Rattle.scope.specs.Entries.{scope_of, Grown};
ghost use Rattle.scope.specs.Spots.{ahead};
ghost use Rattle.scope.specs.Verdicts.{told};
ghost use Rattle.checking.specs.Walk.{block_front, walk_right, walk_test, walk_region, walk_second, walk_case};
ghost use Rattle.checking.specs.Reads.{answer_of, pair_of, functions_of, blocks_of, Kept};

use crate::atom::{atom, need, needed};
use crate::call::call;
use crate::part::{Typed, Walk, ask, misplaced, unneeded};
use crate::side::{cons, nil, operate};
use draft::command::{Command, Name};
use lexing::fault::{Fault, Question};
use scope::spot::Spot;
use scope::state::{Hold, MOST_VARIABLES, State};
use scope::types::{Sort, head, mentions};

// A block in a scope of its own, in at most so many items; what was in scope is so again behind it.
#[cycle(block_item_region_rest_right_second_split_test)]
pub(crate) fn block<'a>(walk: Walk, state: &mut State, spot: Spot<'a>) -> Result<Typed<'a>, Fault>
    ensures verdict { told (answer_of spot.entry.table.now) result ≡ blocks_of spot.entry.table.now walk.entry (scope_of spot.entry.table.now state.old) (ahead spot.entry) }
    ensures there { IfOk result (λ a. a.behind.table.now ≡ spot.entry.table.now) }
    ensures kept { Kept state.old state.new }
{
    let saved = state.counts();
    let hold = Hold { state, saved };
    rest(walk, hold.state, spot)
}

// The items of a block from a spot on.
#[cycle(block_item_region_rest_right_second_split_test)]
fn rest<'a>(walk: Walk, state: &mut State, spot: Spot<'a>) -> Result<Typed<'a>, Fault>
    ensures verdict { told (answer_of spot.entry.table.now) result ≡ blocks_of spot.entry.table.now walk.entry (scope_of spot.entry.table.now state.old) (ahead spot.entry) }
    ensures there { IfOk result (λ a. a.behind.table.now ≡ spot.entry.table.now) }
    ensures grown { Grown state.old state.new }
{
    item(walk.fewer()?, state, spot)
}

// The first item of a block, and what follows it in at most so many items.
#[cycle(block_item_region_rest_right_second_split_test)]
fn item<'a>(walk: Walk, state: &mut State, spot: Spot<'a>) -> Result<Typed<'a>, Fault>
    ensures verdict { told (answer_of spot.entry.table.now) result ≡ block_front (blocks_of spot.entry.table.now walk.entry) (functions_of spot.entry.table.now walk.entry.functions.now) (scope_of spot.entry.table.now state.old) (ahead spot.entry) }
    ensures there { IfOk result (λ a. a.behind.table.now ≡ spot.entry.table.now) }
    ensures grown { Grown state.old state.new }
{
    match spot.split() {
        Some((Command::Last, behind)) => atom(state, behind),
        Some((Command::Let(name), side)) => {
            state.new_variable(spot.table, MOST_VARIABLES, name)?;
            let (sort, behind) = right(walk, state, side)?;
            state.add_variable(name, sort);
            rest(walk, state, behind)
        }
        Some((Command::Print(_), value)) => {
            let behind = need(state, value, Sort::Int)?;
            rest(walk, state, behind)
        }
        _ => Err(misplaced()),
    }
}

// A right side: its type, and the spot behind it.
#[cycle(block_item_region_rest_right_second_split_test)]
fn right<'a>(walk: Walk, state: &mut State, spot: Spot<'a>) -> Result<(Sort, Spot<'a>), Fault>
    ensures verdict { told (pair_of spot.entry.table.now) result ≡ walk_right (blocks_of spot.entry.table.now walk.entry) (functions_of spot.entry.table.now walk.entry.functions.now) (scope_of spot.entry.table.now state.old) (ahead spot.entry) }
    ensures there { IfOk result (λ a. a.1.table.now ≡ spot.entry.table.now) }
    ensures kept { Kept state.old state.new }
{
    let Some((command, behind)) = spot.split() else {
        return Err(misplaced());
    };
    match command {
        Command::Variable(name) => Ok((state.variable(spot.table, name)?, behind)),
        Command::Number(_, _) => Ok((Sort::Int, behind)),
        Command::Operate(_, _) => operate(state, behind),
        Command::Nil(place, name) => nil(state, place, name, Sort::Written(spot.position), behind),
        Command::Cons(_, name) => cons(state, name, behind),
        Command::Call(_, name) => call(walk.functions, state, name, behind),
        Command::If(_) => test(walk, state, behind),
        Command::Region(_, name) => region(walk, state, name, behind),
        Command::Case(_) => split(walk, state, behind),
        _ => Err(misplaced()),
    }
}

// Both blocks of an `if` have one type.
#[cycle(block_item_region_rest_right_second_split_test)]
fn test<'a>(walk: Walk, state: &mut State, spot: Spot<'a>) -> Result<(Sort, Spot<'a>), Fault>
    ensures verdict { told (pair_of spot.entry.table.now) result ≡ walk_test (blocks_of spot.entry.table.now walk.entry) (scope_of spot.entry.table.now state.old) (ahead spot.entry) }
    ensures there { IfOk result (λ a. a.1.table.now ≡ spot.entry.table.now) }
    ensures kept { Kept state.old state.new }
{
    let behind = need(state, spot, Sort::Int)?;
    let first = block(walk, state, behind)?;
    let second = block(walk, state, first.behind)?;
    let behind = needed(spot.table, second, first.sort)?;
    Ok((first.sort, behind))
}

// A region is known inside its block, whose type does not mention it.
#[cycle(block_item_region_rest_right_second_split_test)]
fn region<'a>(
    walk: Walk,
    state: &mut State,
    name: Name,
    spot: Spot<'a>,
) -> Result<(Sort, Spot<'a>), Fault>
    ensures verdict { told (pair_of spot.entry.table.now) result ≡ walk_region (blocks_of spot.entry.table.now walk.entry) (scope_of spot.entry.table.now state.old) (ident (text_of spot.entry.table.now) name) (ahead spot.entry) }
    ensures there { IfOk result (λ a. a.1.table.now ≡ spot.entry.table.now) }
    ensures kept { Kept state.old state.new }
{
    state.new_region(spot.table, name)?;
    let saved = state.counts();
    let hold = Hold { state, saved };
    hold.state.add_region(name);
    let inside = block(walk, hold.state, spot)?;
    let mentioned = mentions(spot.table, name, inside.sort);
    ask(!mentioned, Question::ClosedRegion, inside.place)?;
    Ok((inside.sort, inside.behind))
}

// The block for a list that is not empty, in which the two names are an element and a list.
#[cycle(block_item_region_rest_right_second_split_test)]
fn second<'a>(
    walk: Walk,
    state: &mut State,
    element: Sort,
    list: Sort,
    spot: Spot<'a>,
) -> Result<Typed<'a>, Fault>
    ensures verdict { told (answer_of spot.entry.table.now) result ≡ walk_second (blocks_of spot.entry.table.now walk.entry) (scope_of spot.entry.table.now state.old) (type_of (items spot.entry.table.now) element) (type_of (items spot.entry.table.now) list) (ahead spot.entry) }
    ensures there { IfOk result (λ a. a.behind.table.now ≡ spot.entry.table.now) }
    ensures kept { Kept state.old state.new }
{
    let Some((Command::CaseNames(first, other), behind)) = spot.split() else {
        return Err(misplaced());
    };
    let saved = state.counts();
    let hold = Hold { state, saved };
    hold.state.new_variable(spot.table, MOST_VARIABLES, first)?;
    hold.state.add_variable(first, element);
    hold.state.new_variable(spot.table, MOST_VARIABLES, other)?;
    hold.state.add_variable(other, list);
    block(walk, hold.state, behind)
}

// Both blocks of a `case` have one type.
#[cycle(block_item_region_rest_right_second_split_test)]
fn split<'a>(walk: Walk, state: &mut State, spot: Spot<'a>) -> Result<(Sort, Spot<'a>), Fault>
    ensures verdict { told (pair_of spot.entry.table.now) result ≡ walk_case (blocks_of spot.entry.table.now walk.entry) (scope_of spot.entry.table.now state.old) (ahead spot.entry) }
    ensures there { IfOk result (λ a. a.1.table.now ≡ spot.entry.table.now) }
    ensures kept { Kept state.old state.new }
{
    let list = atom(state, spot)?;
    let Some((_, element)) = head(spot.table, list.sort) else {
        return Err(unneeded(list.place));
    };
    let first = block(walk, state, list.behind)?;
    let other = second(walk, state, element, list.sort, first.behind)?;
    let behind = needed(spot.table, other, first.sort)?;
    Ok((first.sort, behind))
}
