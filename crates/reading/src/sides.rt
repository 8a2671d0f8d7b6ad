// The right sides that hold no block; each is read from its word on.
ghost use Rattle.std.specs.Prelude.{◌≡◌, ℕ, ◌<◌, length};
ghost use Rattle.language.specs.Reading.{type_of, operands, nil_of, cons_of, call_of};
ghost use Rattle.language.specs.Nesting.{most_lists};
ghost use Rattle.draft.specs.Items.{operator as meant, items_right};
ghost use Rattle.reading.specs.Cursors.{end_of, ahead};
ghost use Rattle.reading.specs.Growth.{Reads};
ghost use Rattle.reading.specs.Parts.{behind_word};

use crate::cursor::Cursor;
use crate::lists::{Atom, MOST_LISTS, Side, read_elements, read_regions};
use crate::types::read_type;
use draft::command::{Command, Operator};
use lexing::fault::Fault;

// An operator and its two atoms.
pub(crate) fn read_operation(cursor: &mut Cursor<'_, '_>, operator: Operator) -> Result<(), Fault>
    ensures { Reads (behind_word (end_of cursor.old) (operands (end_of cursor.old) (meant operator))) items_right cursor.old cursor.new result }
{
    let place = cursor.place;
    cursor.advance()?;
    let left = cursor.atom()?;
    let right = cursor.atom()?;
    cursor.push(Command::Operate(place, operator));
    cursor.push(left);
    cursor.push(right);
    Ok(())
}

pub(crate) fn read_nil(cursor: &mut Cursor<'_, '_>) -> Result<(), Fault>
    ensures { Reads (behind_word (end_of cursor.old) (nil_of (end_of cursor.old) (type_of (end_of cursor.old) most_lists))) items_right cursor.old cursor.new result }
{
    let place = cursor.place;
    cursor.advance()?;
    let region = cursor.opened()?;
    cursor.push(Command::Nil(place, region));
    read_type(cursor, MOST_LISTS)?;
    cursor.mark(b")")
}

pub(crate) fn read_cons(cursor: &mut Cursor<'_, '_>) -> Result<(), Fault>
    ensures { Reads (behind_word (end_of cursor.old) (cons_of (end_of cursor.old))) items_right cursor.old cursor.new result }
{
    let place = cursor.place;
    cursor.advance()?;
    let region = cursor.opened()?;
    let left = cursor.atom()?;
    cursor.mark(b",")?;
    let right = cursor.atom()?;
    cursor.mark(b")")?;
    cursor.push(Command::Cons(place, region));
    cursor.push(left);
    cursor.push(right);
    Ok(())
}

pub(crate) fn read_call(cursor: &mut Cursor<'_, '_>) -> Result<(), Fault>
    ensures { (room : ℕ) → length (ahead cursor.old) < room → Reads (behind_word (end_of cursor.old) (call_of (end_of cursor.old) room)) items_right cursor.old cursor.new result }
{
    let place = cursor.place;
    cursor.advance()?;
    let name = cursor.name()?;
    cursor.push(Command::Call(place, name));
    read_regions(cursor, Side::Call)?;
    read_elements(cursor, Atom)
}
