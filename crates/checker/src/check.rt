// A draft is used up, and the program is that of its script where every question is answered yes.
ghost use Rattle.std.specs.Prelude.{◌≡◌, Ok as ok};
ghost use Rattle.language.specs.Syntax.{Script};
ghost use Rattle.language.specs.TypingLaws.{PassesExactlyTheTyped};
ghost use Rattle.draft.specs.Items.{items, items_of};
ghost use Rattle.program.specs.Held.{Holds};
ghost use Rattle.checking.specs.Judged.{Judges};
ghost use Rattle.checker.specs.Kept.{Keeps};

use checking::verify::verify;
use draft::draft::Draft;
use lexing::fault::Fault;
use program::program::Program;
use resolving::fill::fill;

// The first question that fails, with its place, leaves the program that was there.
pub fn check(draft: Draft, program: &mut Program) -> Result<(), Fault>
    ensures answer { Judges draft.table result }
    ensures holds { (s : Script) → items draft.table ≡ items_of s → result ≡ ok tt → Holds program.new.code s }
    ensures keeps { Keeps result program.old program.new }
    ensures law { PassesExactlyTheTyped }
{
    verify(&draft.table)?;
    fill(&draft.table, program);
    Ok(())
}
