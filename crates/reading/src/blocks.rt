// Blocks, their items, and the right sides that hold blocks. How many may still be nested stands beside the cursor: it falls
// with each block, and the cursor goes on.
ghost use Rattle.std.specs.Prelude.{◌≡◌, ℕ, ◌<◌, ◌≤◌, length};
ghost use Rattle.language.specs.Reading.{let_of, print_of, last_of, if_of, region_of, case_of};
ghost use Rattle.draft.specs.Items.{items_right, items_block};
ghost use Rattle.reading.specs.Cursors.{end_of, ahead};
ghost use Rattle.reading.specs.Growth.{Reads};
ghost use Rattle.reading.specs.Parts.{behind_word, side_of, nested_of, inside_of};

use crate::cursor::Cursor;
use crate::head::Head;
use crate::lists::{Atom, Element};
use crate::sides::{read_call, read_cons, read_nil, read_operation};
use draft::command::Command;
use lexing::fault::{Fault, Question};
use lexing::token::Kind;

// A block in which `blocks` may be nested, itself counted.
#[cycle(read_block_read_case_read_if_read_items_read_let_read_print_read_region_read_side)]
pub(crate) fn read_block(cursor: &mut Cursor<'_, '_>, blocks: usize) -> Result<(), Fault>
    ensures { (room : ℕ) → length (ahead cursor.old) < room → Reads (nested_of (end_of cursor.old) room blocks) items_block cursor.old cursor.new result }
{
    if !cursor.stands(Kind::Mark, b"{") {
        return Err(cursor.refused(Question::Grammar));
    }
    if blocks == 0 {
        return Err(cursor.refused(Question::Nesting));
    }
    cursor.advance()?;
    read_items(cursor, blocks - 1)
}

// The items of a block and its last atom, and the closing brace.
#[cycle(read_block_read_case_read_if_read_items_read_let_read_print_read_region_read_side)]
fn read_items(cursor: &mut Cursor<'_, '_>, blocks: usize) -> Result<(), Fault>
    ensures { (whole room : ℕ) → length (ahead cursor.old) < whole → length (ahead cursor.old) < room → Reads (inside_of (end_of cursor.old) whole room blocks) items_block cursor.old cursor.new result }
{
    if cursor.stands(Kind::Keyword, b"let") {
        return read_let(cursor, blocks);
    }
    if cursor.stands(Kind::Keyword, b"print") {
        return read_print(cursor, blocks);
    }
    read_last(cursor)
}

#[cycle(read_block_read_case_read_if_read_items_read_let_read_print_read_region_read_side)]
fn read_let(cursor: &mut Cursor<'_, '_>, blocks: usize) -> Result<(), Fault>
    ensures { (whole room : ℕ) → length (ahead cursor.old) < whole → length (ahead cursor.old) ≤ room → Reads (behind_word (end_of cursor.old) (λ _. let_of (end_of cursor.old) (side_of (end_of cursor.old) whole blocks) (inside_of (end_of cursor.old) whole room blocks))) items_block cursor.old cursor.new result }
{
    cursor.advance()?;
    let name = cursor.name()?;
    cursor.mark(b"=")?;
    cursor.push(Command::Let(name));
    read_side(cursor, blocks)?;
    cursor.mark(b";")?;
    read_items(cursor, blocks)
}

#[cycle(read_block_read_case_read_if_read_items_read_let_read_print_read_region_read_side)]
fn read_print(cursor: &mut Cursor<'_, '_>, blocks: usize) -> Result<(), Fault>
    ensures { (whole room : ℕ) → length (ahead cursor.old) < whole → length (ahead cursor.old) ≤ room → Reads (behind_word (end_of cursor.old) (print_of (end_of cursor.old) (inside_of (end_of cursor.old) whole room blocks))) items_block cursor.old cursor.new result }
{
    let place = cursor.place;
    cursor.advance()?;
    let atom = cursor.atom()?;
    cursor.mark(b";")?;
    cursor.push(Command::Print(place));
    cursor.push(atom);
    read_items(cursor, blocks)
}

fn read_last(cursor: &mut Cursor<'_, '_>) -> Result<(), Fault>
    ensures { Reads (last_of (end_of cursor.old)) items_block cursor.old cursor.new result }
{
    let atom = cursor.atom()?;
    cursor.mark(b"}")?;
    cursor.push(Command::Last);
    cursor.push(atom);
    Ok(())
}

// A right side in which `blocks` may be nested.
#[cycle(read_block_read_case_read_if_read_items_read_let_read_print_read_region_read_side)]
fn read_side(cursor: &mut Cursor<'_, '_>, blocks: usize) -> Result<(), Fault>
    ensures { (whole : ℕ) → length (ahead cursor.old) < whole → Reads (side_of (end_of cursor.old) whole blocks) items_right cursor.old cursor.new result }
{
    match cursor.head() {
        Some(Head::Operation(operator)) => read_operation(cursor, operator),
        Some(Head::Nil) => read_nil(cursor),
        Some(Head::Cons) => read_cons(cursor),
        Some(Head::Call) => read_call(cursor),
        Some(Head::If) => read_if(cursor, blocks),
        Some(Head::Region) => read_region(cursor, blocks),
        Some(Head::Case) => read_case(cursor, blocks),
        None => Atom.read(cursor),
    }
}

#[cycle(read_block_read_case_read_if_read_items_read_let_read_print_read_region_read_side)]
fn read_if(cursor: &mut Cursor<'_, '_>, blocks: usize) -> Result<(), Fault>
    ensures { (whole : ℕ) → length (ahead cursor.old) < whole → Reads (behind_word (end_of cursor.old) (if_of (end_of cursor.old) (nested_of (end_of cursor.old) whole blocks))) items_right cursor.old cursor.new result }
{
    let place = cursor.place;
    cursor.advance()?;
    let atom = cursor.atom()?;
    cursor.push(Command::If(place));
    cursor.push(atom);
    read_block(cursor, blocks)?;
    cursor.keyword(b"else")?; // the other block
    read_block(cursor, blocks)
}

#[cycle(read_block_read_case_read_if_read_items_read_let_read_print_read_region_read_side)]
fn read_region(cursor: &mut Cursor<'_, '_>, blocks: usize) -> Result<(), Fault>
    ensures { (whole : ℕ) → length (ahead cursor.old) < whole → Reads (behind_word (end_of cursor.old) (region_of (end_of cursor.old) (nested_of (end_of cursor.old) whole blocks))) items_right cursor.old cursor.new result }
{
    let place = cursor.place;
    cursor.advance()?;
    let name = cursor.name()?;
    cursor.push(Command::Region(place, name));
    read_block(cursor, blocks)
}

#[cycle(read_block_read_case_read_if_read_items_read_let_read_print_read_region_read_side)]
fn read_case(cursor: &mut Cursor<'_, '_>, blocks: usize) -> Result<(), Fault>
    ensures { (whole : ℕ) → length (ahead cursor.old) < whole → Reads (behind_word (end_of cursor.old) (case_of (end_of cursor.old) (nested_of (end_of cursor.old) whole blocks))) items_right cursor.old cursor.new result }
{
    let place = cursor.place;
    cursor.advance()?;
    let atom = cursor.atom()?;
    cursor.push(Command::Case(place));
    cursor.push(atom);
    read_block(cursor, blocks)?;
    cursor.keyword(b"else")?;
    let head = cursor.name()?;
    let tail = cursor.name()?;
    cursor.push(Command::CaseNames(head, tail));
    read_block(cursor, blocks)
}
