// Headers: their regions and parameters come into scope.
ghost use Rattle.std.specs.Prelude.{◌≡◌, IfOk};
ghost use Rattle.scope.specs.Entries.{scope_of};
ghost use Rattle.scope.specs.Spots.{ahead};
ghost use Rattle.scope.specs.Verdicts.{told};
ghost use Rattle.checking.specs.Walk.{walk_regions, walk_params, walk_outcome, walk_header};
ghost use Rattle.checking.specs.Reads.{rest_of, scope_behind, heading_of};

use crate::atom::written;
use crate::part::{Heading, fewer, misplaced};
use draft::command::Command;
use lexing::fault::Fault;
use scope::spot::Spot;
use scope::state::State;
use scope::types::Sort;

const MOST_PARAMS: usize = 8;

// The regions of a header come into scope one after the other.
fn regions<'a>(state: &mut State, spot: Spot<'a>) -> Result<Spot<'a>, Fault>
    ensures verdict { told (scope_behind spot.entry.table.now state.new) result ≡ walk_regions (scope_of spot.entry.table.now state.old) (ahead spot.entry) }
    ensures there { IfOk result (λ u. u.table.now ≡ spot.entry.table.now) }
{
    match spot.split() {
        Some((Command::HeaderRegion(name), behind)) => {
            state.new_region(spot.table, name)?;
            state.add_region(name);
            regions(state, behind)
        }
        _ => Ok(spot),
    }
}

// Not one with `regions`: a parameter has a type behind its name and counts steps, and what comes into scope is another thing.

// The parameters of a header come into scope one after the other, each behind its type.
fn params<'a>(state: &mut State, spot: Spot<'a>, steps: usize) -> Result<Spot<'a>, Fault>
    ensures verdict { told (scope_behind spot.entry.table.now state.new) result ≡ walk_params steps (scope_of spot.entry.table.now state.old) (ahead spot.entry) }
    ensures there { IfOk result (λ u. u.table.now ≡ spot.entry.table.now) }
{
    let left = fewer(steps)?;
    match spot.split() {
        Some((Command::Parameter(name), words)) => {
            state.new_variable(spot.table, MOST_PARAMS, name)?;
            let behind = written(state, words)?;
            state.add_variable(name, Sort::Written(words.position));
            params(state, behind, left)
        }
        _ => Ok(spot),
    }
}

// The spot of a header's result type, behind its parameters.
fn outcome<'a>(spot: Spot<'a>) -> Result<Spot<'a>, Fault>
    ensures verdict { told (rest_of spot.entry.table.now) result ≡ walk_outcome (ahead spot.entry) }
    ensures there { IfOk result (λ u. u.table.now ≡ spot.entry.table.now) }
{
    match spot.split() {
        Some((Command::Outcome, behind)) => Ok(behind),
        _ => Err(misplaced()),
    }
}

// A header: its regions and parameters come into scope, and its result type is known.
pub(crate) fn header<'a>(
    state: &mut State,
    spot: Spot<'a>,
    steps: usize,
) -> Result<Heading<'a>, Fault>
    ensures verdict { told (heading_of spot.entry.table.now state.new) result ≡ walk_header steps (scope_of spot.entry.table.now state.old) (ahead spot.entry) }
    ensures there { IfOk result (λ h. h.behind.table.now ≡ spot.entry.table.now) }
{
    let behind = regions(state, spot)?;
    let last = params(state, behind, steps)?;
    let result = outcome(last)?;
    let behind = written(state, result)?;
    Ok(Heading {
        result: result.position,
        behind,
    })
}
