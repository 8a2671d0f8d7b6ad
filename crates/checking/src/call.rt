// Calls.
ghost use Rattle.std.specs.Prelude.{◌≡◌, drop, IfOk};
ghost use Rattle.draft.specs.Items.{text_of, items, ident};
ghost use Rattle.scope.specs.Words.{row, declared, handed};
ghost use Rattle.scope.specs.Entries.{scope_of};
ghost use Rattle.scope.specs.Spots.{ahead};
ghost use Rattle.scope.specs.Verdicts.{told};
ghost use Rattle.checking.specs.Walk.{parameters, walk_handed, walk_arguments, called as walk_called, walk_call};
ghost use Rattle.checking.specs.Reads.{rest_of, pair_of, functions_of};

use crate::atom::need;
use crate::part::{Functions, ask};
use crate::row::{fits, parameter, result_of};
use draft::command::{Command, Name};
use lexing::fault::{Fault, Question};
use scope::search::found;
use scope::spot::Spot;
use scope::state::State;
use scope::types::Sort;

// The regions that a call hands over are known. A header's are new and come into scope, so that they have a walk of their own.
fn handed_known<'a>(state: &State, spot: Spot<'a>) -> Result<Spot<'a>, Fault>
    ensures verdict { told (rest_of spot.entry.table.now) result ≡ walk_handed (scope_of spot.entry.table.now state.now) (ahead spot.entry) }
    ensures there { IfOk result (λ u. u.table.now ≡ spot.entry.table.now) }
{
    match spot.split() {
        Some((Command::Handed(name), behind)) => {
            state.known_region(spot.table, name)?;
            handed_known(state, behind)
        }
        _ => Ok(spot),
    }
}

// Each atom from a spot on has the type of its parameter; the header's regions stand at `old`, those handed over at `new`.
fn arguments<'a>(
    state: &State,
    old: usize,
    new: usize,
    header: usize,
    spot: Spot<'a>,
) -> Result<Spot<'a>, Fault>
    ensures verdict { told (rest_of spot.entry.table.now) result ≡ walk_arguments (scope_of spot.entry.table.now state.now) (row declared (drop old (items spot.entry.table.now))) (row handed (drop new (items spot.entry.table.now))) (parameters (drop header (items spot.entry.table.now))) (ahead spot.entry) }
    ensures there { IfOk result (λ u. u.table.now ≡ spot.entry.table.now) }
{
    match parameter(Spot::at(spot.table, header)) {
        None => Ok(spot),
        Some(words) => {
            let behind = need(state, spot, Sort::Called(words.position, old, new))?;
            arguments(state, old, new, words.position, behind)
        }
    }
}

// A call of the function whose header stands at `header`.
fn called<'a>(
    state: &State,
    name: Name,
    header: usize,
    spot: Spot<'a>,
) -> Result<(Sort, Spot<'a>), Fault>
    ensures verdict { told (pair_of spot.entry.table.now) result ≡ walk_called (scope_of spot.entry.table.now state.now) (ident (text_of spot.entry.table.now) name) (ahead spot.entry) (drop header (items spot.entry.table.now)) }
    ensures there { IfOk result (λ a. a.1.table.now ≡ spot.entry.table.now) }
{
    let shape = fits(Spot::at(spot.table, header), spot);
    ask(shape, Question::CallShape, name.place)?;
    let more = handed_known(state, spot)?;
    let after = arguments(state, header, spot.position, header, more)?;
    Ok((result_of(header, spot), after))
}

// A call by the function's name.
pub(crate) fn call<'a>(
    functions: &Functions,
    state: &State,
    name: Name,
    spot: Spot<'a>,
) -> Result<(Sort, Spot<'a>), Fault>
    ensures verdict { told (pair_of spot.entry.table.now) result ≡ walk_call (functions_of spot.entry.table.now functions.now) (scope_of spot.entry.table.now state.now) (ident (text_of spot.entry.table.now) name) (ahead spot.entry) }
    ensures there { IfOk result (λ a. a.1.table.now ≡ spot.entry.table.now) }
{
    let function = found(spot.table, functions.entries.as_slice(), name)?;
    called(state, name, function.header, spot)
}
