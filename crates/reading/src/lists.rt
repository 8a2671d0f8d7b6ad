// Lists of elements with commas between them.
ghost use Rattle.std.specs.Prelude.{◌≡◌, ℕ, ◌<◌, List, [], ◌∷◌, length, codes};
ghost use Rattle.language.specs.Syntax.{Ident, Atom as AtomTree, Param};
ghost use Rattle.language.specs.Reading.{Reader, commas, regions, elements, name_of, atom_of, param_of};
ghost use Rattle.language.specs.Nesting.{most_lists};
ghost use Rattle.draft.specs.Items.{Item, item, ident, items_each, items_atom, items_param};
ghost use Rattle.reading.specs.Cursors.{end_of, ahead};
ghost use Rattle.reading.specs.Growth.{Reads};
ghost use Rattle.reading.specs.Parts.{items_region};

use crate::cursor::Cursor;
use crate::types::read_type;
use draft::command::{Command, Name};
use lexing::fault::Fault;
use lexing::token::Kind;

pub(crate) const MOST_LISTS: usize = 5;

// What stands in a list: how it is read, and the items that the table says of it.
pub(crate) trait Element: Copy {
    ghost Tree: { Type 0 };

    ghost reader: { ℕ → Reader Self.Tree };

    ghost told: { Self → Self.Tree → List Item → List Item };

    fn read(self, cursor: &mut Cursor<'_, '_>) -> Result<(), Fault>
        ensures { Reads (reader (end_of cursor.old)) (told self) cursor.old cursor.new result };
}

// Where a region is named: in a function's header, or in a call.
#[derive(Clone, Copy)]
pub(crate) enum Side {
    Header,
    Call,
}

impl Side {
    fn command(self, name: Name) -> Command
        ensures { (text : List ℕ) (after : List Item) → item text result ∷ after ≡ items_region self (ident text name) after }
    {
        match self {
            Side::Header => Command::HeaderRegion(name),
            Side::Call => Command::Handed(name),
        }
    }
}

// A region.
impl Element for Side {
    ghost Tree = { Ident };

    ghost reader = { name_of };

    ghost told = { items_region };

    fn read(self, cursor: &mut Cursor<'_, '_>) -> Result<(), Fault> {
        let name = cursor.name()?;
        cursor.push(self.command(name));
        Ok(())
    }
}

// An atom.
#[derive(Clone, Copy)]
pub(crate) struct Atom;

impl Element for Atom {
    ghost Tree = { AtomTree };

    ghost reader = { atom_of };

    ghost told = { λ _. items_atom };

    fn read(self, cursor: &mut Cursor<'_, '_>) -> Result<(), Fault> {
        let atom = cursor.atom()?;
        cursor.push(atom);
        Ok(())
    }
}

// A parameter with its type.
#[derive(Clone, Copy)]
pub(crate) struct Parameter;

impl Element for Parameter {
    ghost Tree = { Param };

    ghost reader = { λ end. param_of end most_lists };

    ghost told = { λ _. items_param };

    fn read(self, cursor: &mut Cursor<'_, '_>) -> Result<(), Fault> {
        let name = cursor.name()?;
        cursor.mark(b":")?;
        cursor.push(Command::Parameter(name));
        read_type(cursor, MOST_LISTS)
    }
}

// One element or more, and the closing mark.
fn read_commas<E: Element>(
    cursor: &mut Cursor<'_, '_>,
    element: E,
    close: &[u8],
) -> Result<(), Fault>
    ensures { (room : ℕ) → length (ahead cursor.old) < room → Reads (commas (end_of cursor.old) close.now (E.reader (end_of cursor.old)) room) (items_each (E.told element)) cursor.old cursor.new result }
{
    element.read(cursor)?;
    if !cursor.stands(Kind::Mark, b",") {
        return cursor.mark(close);
    }
    cursor.advance()?;
    read_commas(cursor, element, close)
}

// The elements behind an opening parenthesis, if any, and the closing one.
pub(crate) fn read_elements<E: Element>(
    cursor: &mut Cursor<'_, '_>,
    element: E,
) -> Result<(), Fault>
    ensures { (room : ℕ) → length (ahead cursor.old) < room → Reads (elements (end_of cursor.old) (E.reader (end_of cursor.old)) room) (items_each (E.told element)) cursor.old cursor.new result }
{
    if cursor.stands(Kind::Mark, b")") {
        return cursor.advance();
    }
    read_commas(cursor, element, b")")
}

// The regions in brackets, if any, and the opening parenthesis.
pub(crate) fn read_regions(cursor: &mut Cursor<'_, '_>, side: Side) -> Result<(), Fault>
    ensures { (room : ℕ) → length (ahead cursor.old) < room → Reads (regions (end_of cursor.old) room) (items_each (items_region side)) cursor.old cursor.new result }
{
    if !cursor.stands(Kind::Mark, b"[") {
        return cursor.mark(b"(");
    }
    cursor.advance()?;
    read_commas(cursor, side, b"]")?;
    cursor.mark(b"(")
}
