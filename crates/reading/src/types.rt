// Types.
ghost use Rattle.language.specs.Reading.{type_of};
ghost use Rattle.draft.specs.Items.{items_type};
ghost use Rattle.reading.specs.Cursors.{end_of};
ghost use Rattle.reading.specs.Growth.{Reads};

use crate::cursor::Cursor;
use draft::command::Command;
use lexing::fault::{Fault, Question};
use lexing::token::Kind;

// A type in which `lists` more may be nested.
pub(crate) fn read_type(cursor: &mut Cursor<'_, '_>, lists: usize) -> Result<(), Fault>
    ensures { Reads (type_of (end_of cursor.old) lists) items_type cursor.old cursor.new result }
{
    if cursor.stands(Kind::Keyword, b"int") {
        cursor.advance()?;
        cursor.push(Command::Int);
        return Ok(());
    }
    if !cursor.stands(Kind::Keyword, b"list") {
        return Err(cursor.refused(Question::Grammar));
    }
    if lists == 0 {
        return Err(cursor.refused(Question::Nesting));
    }
    cursor.advance()?;
    let region = cursor.opened()?;
    cursor.push(Command::List(region));
    read_type(cursor, lists - 1)?;
    cursor.mark(b")")
}
