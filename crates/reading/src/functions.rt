// Functions, one after the other up to the end of the text.
ghost use Rattle.std.specs.Prelude.{◌≡◌, ℕ, ◌<◌, List, ◌++◌, length};
ghost use Rattle.draft.specs.Items.{items_fun};
ghost use Rattle.reading.specs.Cursors.{end_of, ahead};
ghost use Rattle.reading.specs.Growth.{Reads, ReadsAll};
ghost use Rattle.reading.specs.Parts.{function_of};

use crate::blocks::read_block;
use crate::cursor::Cursor;
use crate::lists::{MOST_LISTS, Parameter, Side, read_elements, read_regions};
use crate::types::read_type;
use draft::command::Command;
use lexing::fault::Fault;

const MOST_BLOCKS: usize = 8;

fn read_function(cursor: &mut Cursor<'_, '_>) -> Result<(), Fault>
    ensures { (room : ℕ) → length (ahead cursor.old) < room → Reads (function_of (end_of cursor.old) room) items_fun cursor.old cursor.new result }
{
    cursor.keyword(b"fun")?;
    let name = cursor.name()?;
    cursor.push(Command::Function(name));
    read_regions(cursor, Side::Header)?;
    read_elements(cursor, Parameter)?;
    cursor.mark(b":")?;
    cursor.push(Command::Outcome);
    read_type(cursor, MOST_LISTS)?;
    read_block(cursor, MOST_BLOCKS)
}

pub(crate) fn read_functions(cursor: &mut Cursor<'_, '_>) -> Result<(), Fault>
    ensures { (whole room : ℕ) → length (ahead cursor.old) < whole → length (ahead cursor.old) < room → ReadsAll whole room cursor.old cursor.new result }
{
    read_function(cursor)?;
    if cursor.at_end() {
        return Ok(());
    }
    read_functions(cursor)
}
