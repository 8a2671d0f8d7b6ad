// Atoms and written types.
ghost use Rattle.std.specs.Prelude.{◌≡◌, IfOk};
ghost use Rattle.draft.specs.Items.{items};
ghost use Rattle.scope.specs.Words.{type_of};
ghost use Rattle.scope.specs.Entries.{scope_of};
ghost use Rattle.scope.specs.Spots.{ahead};
ghost use Rattle.scope.specs.Verdicts.{told};
ghost use Rattle.checking.specs.Walk.{walk_atom, needed as needed_of, walk_need, walk_type};
ghost use Rattle.checking.specs.Reads.{answer_of, rest_of};

use crate::part::{Typed, ask, misplaced};
use draft::command::Command;
use draft::table::Table;
use lexing::fault::{Fault, Question};
use scope::spot::Spot;
use scope::state::State;
use scope::types::{Sort, same_sort};

// The type of the atom at a spot.
pub(crate) fn atom<'a>(state: &State, spot: Spot<'a>) -> Result<Typed<'a>, Fault>
    ensures verdict { told (answer_of spot.entry.table.now) result ≡ walk_atom (scope_of spot.entry.table.now state.now) (ahead spot.entry) }
    ensures there { IfOk result (λ a. a.behind.table.now ≡ spot.entry.table.now) }
{
    match spot.split() {
        Some((Command::Variable(name), behind)) => {
            let sort = state.variable(spot.table, name)?;
            Ok(Typed {
                sort,
                place: name.place,
                behind,
            })
        }
        Some((Command::Number(place, _), behind)) => Ok(Typed {
            sort: Sort::Int,
            place,
            behind,
        }),
        _ => Err(misplaced()),
    }
}

// A part has the type that it needs: the spot behind it.
pub(crate) fn needed<'a>(table: &Table, part: Typed<'a>, sort: Sort) -> Result<Spot<'a>, Fault>
    ensures verdict { told (rest_of table.now) result ≡ needed_of (answer_of table.now part.entry) (type_of (items table.now) sort) }
    ensures there { IfOk result (λ u. u.table.now ≡ part.entry.behind.table.now) }
{
    let same = same_sort(table, part.sort, sort);
    ask(same, Question::NeededType, part.place)?;
    Ok(part.behind)
}

// The atom at a spot has the type that it needs.
pub(crate) fn need<'a>(state: &State, spot: Spot<'a>, sort: Sort) -> Result<Spot<'a>, Fault>
    ensures verdict { told (rest_of spot.entry.table.now) result ≡ walk_need (scope_of spot.entry.table.now state.now) (type_of (items spot.entry.table.now) sort) (ahead spot.entry) }
    ensures there { IfOk result (λ u. u.table.now ≡ spot.entry.table.now) }
{
    needed(spot.table, atom(state, spot)?, sort)
}

// The regions of the type at a spot are known.
pub(crate) fn written<'a>(state: &State, spot: Spot<'a>) -> Result<Spot<'a>, Fault>
    ensures verdict { told (rest_of spot.entry.table.now) result ≡ walk_type (scope_of spot.entry.table.now state.now) (ahead spot.entry) }
    ensures there { IfOk result (λ u. u.table.now ≡ spot.entry.table.now) }
{
    match spot.split() {
        Some((Command::List(name), behind)) => {
            state.known_region(spot.table, name)?;
            written(state, behind)
        }
        Some((Command::Int, behind)) => Ok(behind),
        _ => Err(misplaced()),
    }
}
