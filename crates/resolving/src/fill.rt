// A draft's table whose script has passed every question becomes a program.
ghost use Rattle.std.specs.Prelude.{◌≡◌, ℕ, Ok as ok};
ghost use Rattle.language.specs.Syntax.{Script};
ghost use Rattle.language.specs.Checking.{checking};
ghost use Rattle.draft.specs.Items.{items, items_of};
ghost use Rattle.program.specs.Held.{Holds};
ghost use Rattle.resolving.specs.Whole.{HoldsChecked};

use crate::calls::seek_function;
use crate::functions::functions;
use draft::table::Table;
use program::code::Code;
use program::program::Program;

// The program of the table's script, which has passed checking before.
pub fn fill(table: &Table, program: &mut Program)
    requires { HoldsChecked table.now }
    ensures { (end : ℕ) (s : Script) → items table.now ≡ items_of s → checking end s ≡ ok s → Holds program.new.code s }
{
    let mut code = Code::new();
    functions(table, &mut code, 0);
    code.main = seek_function(table, b"main", 0, 0).index;
    *program = Program::of(code);
}
