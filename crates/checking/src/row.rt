// What stands in a row: regions declared and handed over, parameters and the atoms for them.
ghost use Rattle.std.specs.Prelude.{◌≡◌, ◌+◌, ◌<◌, ◌&&◌, [], ◌∷◌, length, drop, Some as some, None as none, MatchOption, ◌==◌};
ghost use Rattle.draft.specs.Items.{items};
ghost use Rattle.language.specs.Types.{replaced};
ghost use Rattle.scope.specs.Words.{row, declared, handed, type_of};
ghost use Rattle.scope.specs.Spots.{ahead, Behind};
ghost use Rattle.checking.specs.Walk.{argument, parameters, outcome as outcome_of, result_type};

use draft::command::Command;
use scope::spot::Spot;
use scope::types::Sort;

// Whether a call hands over as many regions as a header declares.
fn same_regions(header: Spot, call: Spot) -> bool
    ensures { result ≡ (length (row handed (ahead call.entry)) == length (row declared (ahead header.entry))) }
{
    match (call.handed(), header.declared()) {
        (None, None) => true,
        (Some((_, others)), Some((_, more))) => same_regions(more, others),
        _ => false,
    }
}

// The spot behind the regions that a call hands over.
fn behind_handed<'a>(call: Spot<'a>) -> Spot<'a>
    ensures { ahead result ≡ drop (length (row handed (ahead call.entry))) (ahead call.entry) }
{
    match call.handed() {
        None => call,
        Some((_, others)) => behind_handed(others),
    }
}

// The spot behind an atom that a call hands over.
fn argument_behind<'a>(spot: Spot<'a>) -> Option<Spot<'a>>
    ensures { MatchOption result (row argument (ahead spot.entry) ≡ []) (λ u. Behind spot.entry u × (row argument (ahead spot.entry) ≡ tt ∷ row argument (ahead u))) }
{
    match spot.split() {
        Some((Command::Variable(_) | Command::Number(_, _), behind)) => Some(behind),
        _ => None,
    }
}

// The spot of the type of a header's next parameter.
pub(crate) fn parameter<'a>(header: Spot<'a>) -> Option<Spot<'a>>
    ensures { MatchOption result (parameters (ahead header.entry) ≡ []) (λ u. (u.table.now ≡ header.entry.table.now) × (header.entry.position < u.position) × (u.position < 4097) × (parameters (ahead header.entry) ≡ ahead u ∷ parameters (ahead u))) }
{
    let (command, behind) = header.split()?;
    match command {
        Command::Parameter(_) => Some(behind),
        Command::HeaderRegion(_) | Command::List(_) | Command::Int => parameter(behind),
        _ => None,
    }
}

// Not one with `same_regions`: a walk that takes the two steps as closures needs a law of each, and is longer than both.

// Whether a call hands over as many atoms as a header has parameters.
fn same_arguments(header: Spot, call: Spot) -> bool
    ensures { result ≡ (length (row argument (ahead call.entry)) == length (parameters (ahead header.entry))) }
{
    match (argument_behind(call), parameter(header)) {
        (None, None) => true,
        (Some(others), Some(more)) => same_arguments(more, others),
        _ => false,
    }
}

// Whether a call has as many regions and atoms as the function.
pub(crate) fn fits(header: Spot, call: Spot) -> bool
    ensures { result ≡ (length (row handed (ahead call.entry)) == length (row declared (ahead header.entry)) && length (row argument (drop (length (row handed (ahead call.entry))) (ahead call.entry))) == length (parameters (ahead header.entry))) }
{
    same_regions(header, call) && same_arguments(header, behind_handed(call))
}

// Not one with `parameter`: they pass over and stop at different commands, so that a shared walk would take both choices as closures.

// The spot of a header's result type.
pub(crate) fn outcome<'a>(header: Spot<'a>) -> Option<Spot<'a>>
    ensures { MatchOption result (outcome_of (ahead header.entry) ≡ none) (λ u. (u.table.now ≡ header.entry.table.now) × (outcome_of (ahead header.entry) ≡ some (ahead u))) }
{
    let (command, behind) = header.split()?;
    match command {
        Command::Outcome => Some(behind),
        Command::Parameter(_) | Command::HeaderRegion(_) | Command::List(_) | Command::Int => {
            outcome(behind)
        }
        _ => None,
    }
}

// The type of a call: the header's result type, with the regions that it declares replaced by those that the call hands over.
pub(crate) fn result_of(header: usize, call: Spot) -> Sort
    ensures { type_of (items call.entry.table.now) result ≡ replaced (row declared (drop header (items call.entry.table.now))) (row handed (ahead call.entry)) (result_type (drop header (items call.entry.table.now))) }
{
    // A `map_or` was tried: what its closure answers could not be told of the words' spot.
    match outcome(Spot::at(call.table, header)) {
        Some(words) => Sort::Called(words.position, header, call.position),
        None => Sort::Int,
    }
}
