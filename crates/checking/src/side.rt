// Right sides that hold no block.
ghost use Rattle.std.specs.Prelude.{◌≡◌, IfOk};
ghost use Rattle.language.specs.Types.{list, same_type};
ghost use Rattle.draft.specs.Items.{text_of, items, ident};
ghost use Rattle.scope.specs.Words.{bytes, type_at, type_of};
ghost use Rattle.scope.specs.Entries.{scope_of};
ghost use Rattle.scope.specs.Spots.{ahead};
ghost use Rattle.scope.specs.Verdicts.{told};
ghost use Rattle.checking.specs.Walk.{walk_operation, walk_nil, walk_cons};
ghost use Rattle.checking.specs.Reads.{pair_of};

use crate::atom::{atom, need, written};
use crate::part::ask;
use draft::command::Name;
use draft::table::Table;
use lexing::fault::{Fault, Question};
use scope::name::same_name;
use scope::spot::Spot;
use scope::state::State;
use scope::types::{Sort, depth, head, same_sort};

const DEEPEST: usize = 5;

// Two atoms that are ints.
pub(crate) fn operate<'a>(state: &State, spot: Spot<'a>) -> Result<(Sort, Spot<'a>), Fault>
    ensures verdict { told (pair_of spot.entry.table.now) result ≡ walk_operation (scope_of spot.entry.table.now state.now) (ahead spot.entry) }
    ensures there { IfOk result (λ a. a.1.table.now ≡ spot.entry.table.now) }
{
    let more = need(state, spot, Sort::Int)?;
    let after = need(state, more, Sort::Int)?;
    Ok((Sort::Int, after))
}

// The type that `nil` writes: that of lists in a region, with the elements whose type stands at a spot.
pub(crate) fn nil<'a>(
    state: &State,
    place: usize,
    region: Name,
    sort: Sort,
    spot: Spot<'a>,
) -> Result<(Sort, Spot<'a>), Fault>
    requires { type_of (items spot.table.now) sort ≡ list (bytes (text_of spot.table.now) region) (type_at (ahead spot)) }
    ensures verdict { told (pair_of spot.entry.table.now) result ≡ walk_nil (scope_of spot.entry.table.now state.now) place (ident (text_of spot.entry.table.now) region) (ahead spot.entry) }
    ensures there { IfOk result (λ a. a.1.table.now ≡ spot.entry.table.now) }
{
    state.known_region(spot.table, region)?;
    let after = written(state, spot)?;
    ask(
        depth(spot.table, sort) <= DEEPEST,
        Question::TypeDepth,
        place,
    )?;
    Ok((sort, after))
}

// Whether a type is that of lists in a region with elements of a type.
fn lists(table: &Table, sort: Sort, region: Name, element: Sort) -> bool
    ensures { result ≡ same_type (type_of (items table.now) sort) (list (bytes (text_of table.now) region) (type_of (items table.now) element)) }
{
    match head(table, sort) {
        None => false,
        Some((name, inner)) => same_name(table, name, region) && same_sort(table, inner, element),
    }
}

// An element before a list in that region.
pub(crate) fn cons<'a>(
    state: &State,
    region: Name,
    spot: Spot<'a>,
) -> Result<(Sort, Spot<'a>), Fault>
    ensures verdict { told (pair_of spot.entry.table.now) result ≡ walk_cons (scope_of spot.entry.table.now state.now) (ident (text_of spot.entry.table.now) region) (ahead spot.entry) }
    ensures there { IfOk result (λ a. a.1.table.now ≡ spot.entry.table.now) }
{
    state.known_region(spot.table, region)?;
    let element = atom(state, spot)?;
    let others = atom(state, element.behind)?;
    ask(
        lists(spot.table, others.sort, region, element.sort),
        Question::NeededType,
        others.place,
    )?;
    Ok((others.sort, others.behind))
}
