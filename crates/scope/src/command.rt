// The command at a position of a table.
ghost use Rattle.std.specs.Prelude.{◌≡◌, ◌+◌, ◌<◌, [], ◌∷◌, drop, MatchOption};
ghost use Rattle.draft.specs.Items.{text_of, items, item};

use draft::command::Command;
use draft::table::Table;

// The command at a position, or none behind the last one.
pub fn command_at(table: &Table, position: usize) -> Option<Command>
    ensures { MatchOption result (drop position (items table.now) ≡ []) (λ c. (position < 4096) × (drop position (items table.now) ≡ item (text_of table.now) c ∷ drop (position + 1) (items table.now))) }
{
    table.commands.item(position)
}
