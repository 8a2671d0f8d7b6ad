// What is in scope: regions and variables, the outermost first, and the guard that puts them back.
ghost use Rattle.std.specs.Prelude.{◌≡◌, ◌<◌, ◌≤◌, length, take, OnOk};
ghost use Rattle.language.specs.Syntax.{var};
ghost use Rattle.language.specs.Checking.{type_atom, new_region, new_variable};
ghost use Rattle.draft.specs.Items.{text_of, items, ident};
ghost use Rattle.scope.specs.Words.{bytes, type_of};
ghost use Rattle.scope.specs.Entries.{scope_of, counts_of, Grown, Empty, AddsRegion, AddsVariable};
ghost use Rattle.scope.specs.Verdicts.{told, passed, known};

use crate::search::{Variable, found, free};
use crate::types::Sort;
use draft::command::Name;
use draft::table::Table;
use lexing::fault::Fault;
use rows::row::Row;

pub const MOST_REGIONS: usize = 8;

pub const MOST_VARIABLES: usize = 32;

// How many regions and how many variables are in scope.
#[derive(Clone, Copy)]
pub struct Counts {
    pub regions: usize,
    pub variables: usize,
}

#[derive(Clone, Copy)]
pub struct State {
    pub regions: Row<Name, MOST_REGIONS>,
    pub variables: Row<Variable, MOST_VARIABLES>,
}

// A scope that is left: what came into it goes on every way out.
pub struct Hold<'a> {
    pub state: &'a mut State,
    pub saved: Counts,
    // What was saved is still there.
    ghost held_regions: { saved.regions ≤ length state.now.regions.items },
    ghost held_variables: { saved.variables ≤ length state.now.variables.items },
}

impl Drop for Hold<'_> {
    fn drop(self)
        ensures counts { counts_of self.exit.0.now ≡ self.entry.saved }
        ensures regions { self.exit.0.now.regions.items ≡ take self.entry.saved.regions self.entry.state.now.regions.items }
        ensures variables { self.exit.0.now.variables.items ≡ take self.entry.saved.variables self.entry.state.now.variables.items }
    {
        let Hold { state, saved } = self;
        state.regions.truncate(saved.regions);
        state.variables.truncate(saved.variables);
    }
}

impl State {
    // Nothing is in scope.
    pub fn new() -> State
        ensures { Empty result }
    {
        let name = Name {
            place: 0,
            length: 0,
        };
        State {
            regions: Row::new(name),
            variables: Row::new(Variable {
                name,
                sort: Sort::Int,
            }),
        }
    }

    // How much is in scope.
    pub fn counts(&self) -> Counts
        ensures regions { result.regions ≡ length self.now.regions.items }
        ensures variables { result.variables ≡ length self.now.variables.items }
    {
        Counts {
            regions: self.regions.len(),
            variables: self.variables.len(),
        }
    }

    // One region more, where there is room.
    pub fn add_region(&mut self, name: Name)
        ensures added { AddsRegion self.old self.new name }
        ensures grown { Grown self.old self.new }
    {
        self.regions.push(name);
    }

    // One variable more, where there is room.
    pub fn add_variable(&mut self, name: Name, sort: Sort)
        ensures added { AddsVariable self.old self.new name sort }
        ensures grown { Grown self.old self.new }
    {
        self.variables.push(Variable { name, sort });
    }

    // The region is known.
    pub fn known_region(&self, table: &Table, name: Name) -> Result<(), Fault>
        ensures { passed result ≡ known (scope_of table.now self.now) (ident (text_of table.now) name) }
    {
        found(table, self.regions.as_slice(), name)?;
        Ok(())
    }

    // What these two ask is `free`'s to say: each names its row and its limit.

    // A region may take that name.
    pub fn new_region(&self, table: &Table, name: Name) -> Result<(), Fault>
        ensures asked { passed result ≡ new_region (scope_of table.now self.now) (ident (text_of table.now) name) }
        ensures room { OnOk result (length self.now.regions.items < 8) }
    {
        free(table, self.regions.as_slice(), MOST_REGIONS, name)
    }

    // A variable may take that name, where at most so many may be in scope.
    pub fn new_variable(&self, table: &Table, most: usize, name: Name) -> Result<(), Fault>
        ensures asked { passed result ≡ new_variable most (scope_of table.now self.now) (ident (text_of table.now) name) }
        ensures room { OnOk result (length self.now.variables.items < most) }
    {
        free(table, self.variables.as_slice(), most, name)
    }

    // The type of the variable of that name.
    pub fn variable(&self, table: &Table, name: Name) -> Result<Sort, Fault>
        ensures { told (type_of (items table.now)) result ≡ type_atom (scope_of table.now self.now) (var (ident (text_of table.now) name)) }
    {
        let variable = found(table, self.variables.as_slice(), name)?;
        Ok(variable.sort)
    }
}
