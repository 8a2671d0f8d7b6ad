// The bytes of a name, read in the text that a table keeps.
ghost use Rattle.std.specs.Prelude.{◌≡◌, take, drop};
ghost use Rattle.lexing.specs.Tokens.{same_bytes};
ghost use Rattle.draft.specs.Items.{text_of};
ghost use Rattle.scope.specs.Words.{bytes};

use draft::command::Name;
use draft::table::Table;
use lexing::bytes::same;

// As much of a part of a text as there is.
fn part(text: &[u8], place: usize, length: usize) -> &[u8]
    ensures { result.now ≡ take length (drop place text.now) }
{
    let rest = &text[place.min(text.len())..];
    &rest[..length.min(rest.len())]
}

// The text that a table keeps.
pub fn text(table: &Table) -> &[u8]
    ensures { result.now ≡ text_of table.now }
{
    table.text.as_slice()
}

// The bytes of a name.
pub fn bytes_of(table: &Table, name: Name) -> &[u8]
    ensures { result.now ≡ bytes (text_of table.now) name }
{
    part(text(table), name.place, name.length)
}

// Whether two names have the same bytes.
pub fn same_name(table: &Table, left: Name, right: Name) -> bool
    ensures { result ≡ same_bytes (bytes (text_of table.now) left) (bytes (text_of table.now) right) }
{
    same(bytes_of(table, left), bytes_of(table, right))
}
