// Functions: their headers from the left, the main function, and their blocks from the left.
ghost use Rattle.std.specs.Prelude.{◌≡◌, ◌<◌, [], length, codes, IfOk, OnOk};
ghost use Rattle.language.specs.Scope.{find, empty_scope};
ghost use Rattle.draft.specs.Items.{text_of, items, ident};
ghost use Rattle.scope.specs.Words.{type_of};
ghost use Rattle.scope.specs.Spots.{ahead};
ghost use Rattle.scope.specs.Verdicts.{told, passed};
ghost use Rattle.checking.specs.Walk.{walk_header, behind_header, next_function as next_of, new_function as new_of, walk_headers, result_type, main_items, walk_main, walk_body, walk_bodies};
ghost use Rattle.checking.specs.Reads.{rest_of, functions_of, functions_in, AddsFunction};

use crate::atom::needed;
use crate::block::block;
use crate::header::header;
use crate::part::{Functions, MOST_FUNCTIONS, Walk, ask, fewer, misplaced};
use crate::row::{outcome, parameter};
use draft::command::{Command, Name};
use draft::table::Table;
use lexing::fault::{Fault, Question};
use rows::row::Row;
use scope::name::bytes_of;
use scope::search::{Function, first};
use scope::spot::Spot;
use scope::state::State;
use scope::types::{Sort, same_sort};

impl Functions {
    // No function is known.
    pub(crate) fn new() -> Functions
        ensures { result.entries.items ≡ [] }
    {
        let name = Name {
            place: 0,
            length: 0,
        };
        Functions {
            entries: Row::new(Function { name, header: 0 }),
        }
    }

    // One function more, where there is room.
    fn add(&mut self, name: Name, header: usize)
        ensures { AddsFunction self.old self.new name header }
    {
        self.entries.push(Function { name, header });
    }

    // A function may take that name.
    fn new_function(&self, table: &Table, name: Name) -> Result<(), Fault>
        ensures asked { passed result ≡ new_of (functions_of table.now self.now) (ident (text_of table.now) name) }
        ensures room { OnOk result (length self.now.entries.items < 64) }
    {
        let known = first(table, self.entries.as_slice(), bytes_of(table, name));
        ask(known.is_none(), Question::NewFunction, name.place)?;
        ask(
            self.entries.len() < MOST_FUNCTIONS,
            Question::Room,
            name.place,
        )
    }
}

// The spot of the next function.
fn next_function<'a>(spot: Spot<'a>) -> Spot<'a>
    ensures next { rest_of spot.entry.table.now result ≡ next_of (ahead spot.entry) }
    ensures there { result.table.now ≡ spot.entry.table.now }
{
    match spot.split() {
        None | Some((Command::Function(_), _)) => spot,
        Some((_, behind)) => next_function(behind),
    }
}

// The spot behind a header that stands in no scope.
fn alone<'a>(spot: Spot<'a>, steps: usize) -> Result<Spot<'a>, Fault>
    ensures verdict { told (rest_of spot.entry.table.now) result ≡ behind_header (walk_header steps empty_scope (ahead spot.entry)) }
    ensures there { IfOk result (λ u. u.table.now ≡ spot.entry.table.now) }
{
    let mut state = State::new();
    let heading = header(&mut state, spot, steps)?;
    Ok(heading.behind)
}

// All headers from the left.
pub(crate) fn headers(functions: &mut Functions, spot: Spot, steps: usize) -> Result<(), Fault>
    ensures { told (functions_in spot.entry.table.now functions.new) result ≡ walk_headers steps (functions_of spot.entry.table.now functions.old) (ahead spot.entry) }
{
    let left = fewer(steps)?;
    match spot.split() {
        None => Ok(()),
        Some((Command::Function(name), inner)) => {
            functions.new_function(spot.table, name)?;
            let behind = alone(inner, left)?;
            functions.add(name, inner.position);
            headers(functions, next_function(behind), left)
        }
        _ => Err(misplaced()),
    }
}

// The type that a header gives its result.
fn declared_result(header: Spot) -> Sort
    ensures { type_of (items header.entry.table.now) result ≡ result_type (ahead header.entry) }
{
    outcome(header).map_or(Sort::Int, |words| Sort::Written(words.position))
}

// Whether a header has no region, one int parameter and an int result.
fn main_like(header: Spot) -> bool
    ensures { result ≡ main_items (ahead header.entry) }
{
    let Some(words) = parameter(header) else {
        return false;
    };
    header.declared().is_none()
        && parameter(words).is_none()
        && same_sort(header.table, Sort::Written(words.position), Sort::Int)
        && same_sort(header.table, declared_result(header), Sort::Int)
}

// There is a main.
pub(crate) fn main_function(table: &Table, functions: &Functions) -> Result<(), Fault>
    ensures { passed result ≡ walk_main (length (text_of table.now)) (find (λ h. h.0.name) (codes "main") (functions_of table.now functions.now)) }
{
    let entries = functions.entries.as_slice();
    match first(table, entries, b"main") {
        None => ask(false, Question::MainFunction, table.text.len()),
        Some(i) => {
            let Function { name, header } = entries[i];
            let fits = main_like(Spot::at(table, header));
            ask(fits, Question::MainFunction, name.place)
        }
    }
}

// A function's block has the declared result type.
fn body<'a>(walk: Walk, spot: Spot<'a>) -> Result<Spot<'a>, Fault>
    ensures verdict { told (rest_of spot.entry.table.now) result ≡ walk_body walk.entry.steps (functions_of spot.entry.table.now walk.entry.functions.now) (ahead spot.entry) }
    ensures there { IfOk result (λ u. u.table.now ≡ spot.entry.table.now) }
{
    let mut state = State::new();
    let heading = header(&mut state, spot, walk.steps)?;
    let typed = block(walk, &mut state, heading.behind)?;
    needed(spot.table, typed, Sort::Written(heading.result))
}

// Not one with `headers`: what is done with a function, and where the next one stands, differ; only the two arms that end agree.

// All blocks from the left.
pub(crate) fn bodies(walk: Walk, spot: Spot) -> Result<(), Fault>
    ensures { passed result ≡ walk_bodies walk.entry.steps (functions_of spot.entry.table.now walk.entry.functions.now) (ahead spot.entry) }
{
    let left = walk.fewer()?;
    match spot.split() {
        None => Ok(()),
        Some((Command::Function(_), inner)) => {
            let behind = body(left, inner)?;
            bodies(left, behind)
        }
        _ => Err(misplaced()),
    }
}
