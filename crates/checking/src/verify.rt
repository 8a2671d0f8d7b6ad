// The verdict on a draft's commands.
ghost use Rattle.std.specs.Prelude.{◌≡◌, length};
ghost use Rattle.draft.specs.Items.{text_of, items};
ghost use Rattle.scope.specs.Verdicts.{passed};
ghost use Rattle.checking.specs.Walk.{walk_script};
ghost use Rattle.checking.specs.Judged.{Judges};

use crate::function::{bodies, headers, main_function};
use crate::part::{Functions, Walk};
use draft::table::Table;
use lexing::fault::Fault;
use scope::spot::Spot;

// The headers, the main function and the blocks, in at most so many steps.
fn questions(table: &Table, steps: usize) -> Result<(), Fault>
    ensures { passed result ≡ walk_script steps (length (text_of table.now)) (items table.now) }
{
    let start = Spot::at(table, 0);
    let mut functions = Functions::new();
    headers(&mut functions, start, steps)?;
    main_function(table, &functions)?;
    let walk = Walk {
        functions: &functions,
        steps,
    };
    bodies(walk, start)
}

// The verdict on the script that a table holds: the answer of checking, with the number and the place of the first question that fails.
pub fn verify(table: &Table) -> Result<(), Fault>
    ensures { Judges table.now result }
{
    questions(table, table.commands.len() + 1)
}
