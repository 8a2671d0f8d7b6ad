// A whole text.
ghost use Rattle.std.specs.Prelude.{◌≡◌, length};
ghost use Rattle.language.specs.Reading.{reading};
ghost use Rattle.language.specs.ReadingLaws.{ReadsSpelled, RefusesRightly};
ghost use Rattle.draft.specs.Items.{text_of, items};
ghost use Rattle.reading.specs.Answers.{said, answered, kept, held_then, Filled};

use crate::cursor::Cursor;
use crate::functions::read_functions;
use draft::draft::Draft;
use draft::table::Table;
use lexing::fault::Fault;
use lexing::scan::scan;

// The questions 1 to 5 first, then 6 and 7 token by token; a refusal leaves the table half filled.
fn fill(text: &[u8], table: &mut Table) -> Result<(), Fault>
    ensures { Filled text.now result table.new }
{
    let _count = scan(text)?;
    table.load(text);
    let mut cursor = Cursor::new(text, table)?;
    read_functions(&mut cursor)
}

// The same, and a refusal leaves the table empty.
fn refill(text: &[u8], table: &mut Table) -> Result<(), Fault>
    ensures answer { said result table.new ≡ answered (reading text.now) }
    ensures items { items table.new ≡ held_then (reading text.now) }
    ensures text { text_of table.new ≡ kept result text.now }
    ensures length { length table.new.text.items ≡ length (kept result text.now) }
{
    // By `inspect_err` the table would be cleared in a closure, and what it holds then could not be told.
    match fill(text, table) {
        Ok(()) => Ok(()),
        Err(fault) => {
            table.clear();
            Err(fault)
        }
    }
}

// A text becomes a draft: on success the draft holds the script of the text, with the text; a refusal leaves the empty draft.
pub fn read(text: &[u8], draft: &mut Draft) -> Result<(), Fault>
    ensures answer { said result draft.new.table ≡ answered (reading text.now) }
    ensures items { items draft.new.table ≡ held_then (reading text.now) }
    ensures text { text_of draft.new.table ≡ kept result text.now }
    ensures length { length draft.new.table.text.items ≡ length (kept result text.now) }
    ensures spelled { ReadsSpelled }
    ensures rightly { RefusesRightly }
{
    refill(text, &mut draft.table)
}
