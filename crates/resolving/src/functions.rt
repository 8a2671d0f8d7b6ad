// The functions of a table, one after the other.
ghost use Rattle.std.specs.Prelude.{◌≡◌, ◌≤◌, length};
ghost use Rattle.draft.specs.Items.{items};
ghost use Rattle.resolving.specs.Whole.{FunctionsWalk};

use crate::headers::read_header;
use crate::names::Names;
use crate::walk::block;
use draft::table::Table;
use program::code::Code;
use program::command::{Function, Way};

// The functions from a position on: their commands, and an entry for each.
pub fn functions(table: &Table, code: &mut Code, position: usize)
    ensures fits { length (items table.now) ≤ 4096 }
    ensures walks { FunctionsWalk table.now code.old code.new position }
    ensures main { code.new.main ≡ code.old.main }
{
    if position >= table.commands.len() {
        return;
    }
    let header = read_header(table, position);
    code.functions.push(Function {
        start: code.commands.len(),
        regions: header.state.regions.len(),
        params: header.state.variables.len(),
    });
    let names = Names {
        table,
        state: header.state,
    };
    let end = block(&names, &mut code.commands, header.body, Way::Return);
    if end.position > position {
        functions(table, code, end.position);
    }
}
