// What the walk answers of a part, and the functions that it knows.
ghost use Rattle.std.specs.Prelude.{◌≡◌, suc, MatchResult};
ghost use Rattle.lexing.specs.Numbers.{question_number};
ghost use Rattle.language.specs.Checking.{ask as asked};
ghost use Rattle.scope.specs.Verdicts.{refused, passed};

use lexing::fault::{Fault, Question};
use rows::row::Row;
use scope::search::Function;
use scope::spot::Spot;
use scope::types::Sort;

pub const MOST_FUNCTIONS: usize = 64;

// Each walk says in a clause that the spot it answers lies in the table of the spot it was given: no type can say that of two values.

// A typed atom or block: its type, the place of its last atom, and the spot behind it.
#[derive(Clone, Copy)]
pub struct Typed<'a> {
    pub sort: Sort,
    pub place: usize,
    pub behind: Spot<'a>,
}

// A header that was walked: where its result type stands, and the spot behind it.
#[derive(Clone, Copy)]
pub struct Heading<'a> {
    pub result: usize,
    pub behind: Spot<'a>,
}

// The functions of a script, by their names and the positions of their headers.
#[derive(Clone, Copy)]
pub struct Functions {
    pub entries: Row<Function, MOST_FUNCTIONS>,
}

// What a walk over blocks has: the functions that they may call, and the steps that are left.
#[derive(Clone, Copy)]
pub(crate) struct Walk<'a> {
    pub functions: &'a Functions,
    pub steps: usize,
}

impl<'a> Walk<'a> {
    // One step less, or the fault that none is left.
    pub(crate) fn fewer(self) -> Result<Walk<'a>, Fault>
        ensures { MatchResult result (λ w. (w.functions.now ≡ self.entry.functions.now) × (self.entry.steps ≡ suc w.steps)) (λ e. (self.entry.steps ≡ 0) × (refused e ≡ record { number = 6; place = 0 })) }
    {
        let steps = fewer(self.steps)?;
        Ok(Walk {
            functions: self.functions,
            steps,
        })
    }
}

// A question that holds, or the fault that it does not.
pub(crate) fn ask(holds: bool, question: Question, place: usize) -> Result<(), Fault>
    ensures { passed result ≡ asked holds (question_number question) place }
{
    if holds {
        Ok(())
    } else {
        Err(Fault { question, place })
    }
}

// The fault for commands that tell no part of a script: a draft has none such.
pub(crate) fn misplaced() -> Fault
    ensures { refused result ≡ record { number = 6; place = 0 } }
{
    Fault {
        question: Question::Grammar,
        place: 0,
    }
}

// One step less, or the fault that none is left.
pub(crate) fn fewer(steps: usize) -> Result<usize, Fault>
    ensures { MatchResult result (λ n. steps ≡ suc n) (λ e. (steps ≡ 0) × (refused e ≡ record { number = 6; place = 0 })) }
{
    steps.checked_sub(1).ok_or_else(misplaced)
}

// The fault of an atom that has not the type it needs.
pub(crate) fn unneeded(place: usize) -> Fault
    ensures { refused result ≡ record { number = 13; place = place } }
{
    Fault {
        question: Question::NeededType,
        place,
    }
}
