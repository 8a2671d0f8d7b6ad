// The names in scope, and the slots that they stand for.
ghost use Rattle.std.specs.Prelude.{◌≡◌};
ghost use Rattle.draft.specs.Items.{text_of};
ghost use Rattle.scope.specs.Words.{bytes};
ghost use Rattle.scope.specs.Entries.{scope_of};
ghost use Rattle.program.specs.Compiled.{index, region_slot, variable_slot};

use draft::command::Name;
use draft::table::Table;
use scope::name::bytes_of;
use scope::search::{Named, first};
use scope::state::State;

// What is in scope, with the table that its names and types stand in.
#[derive(Clone, Copy)]
pub struct Names<'a> {
    pub table: &'a Table,
    pub state: State,
}

impl Names<'_> {
    // What these two look up is `index_of`'s to say: each names its row.

    // The slot of a region.
    pub fn region(&self, name: Name) -> usize
        ensures { result ≡ region_slot (scope_of self.now.table.now self.now.state) (bytes (text_of self.now.table.now) name) }
    {
        index_of(
            self.table,
            self.state.regions.as_slice(),
            bytes_of(self.table, name),
        )
    }

    // The slot of a variable.
    pub fn variable(&self, name: Name) -> usize
        ensures { result ≡ variable_slot (scope_of self.now.table.now self.now.state) (bytes (text_of self.now.table.now) name) }
    {
        index_of(
            self.table,
            self.state.variables.as_slice(),
            bytes_of(self.table, name),
        )
    }
}

// How many entries stand before the first of that name.
pub fn index_of<E: Named>(table: &Table, entries: &[E], sought: &[u8]) -> usize
    ensures { result ≡ index (λ e. bytes (text_of table.now) (E.key e)) sought.now entries.now }
{
    first(table, entries, sought).unwrap_or(entries.len())
}
