// One operation on a store, as a value, and its answer.
ghost use Rattle.std.specs.Prelude.{◌≡◌, Some};
ghost use Rattle.piles.specs.Pile.{pile_regions, pile_rule};
ghost use Rattle.store_shell.specs.Operation.{answered, afterwards, called};

use piles::pile::Pile;
use regions::refusal::Refusal;
use regions::store::RegionStore;
use std::fmt;

#[derive(Clone, Copy, PartialEq, Eq, Debug)]
pub enum Operation {
    Open,
    // Position, and two words.
    Put(usize, u32, u32),
    // Position and place.
    Get(usize, usize),
    Close,
    Clear,
}

#[derive(Clone, Copy, PartialEq, Eq, Debug)]
pub enum Answer {
    Done,
    // How long the region was.
    Length(usize),
    Word(u32),
}

// An operation by its name, as it stands in a line.
impl fmt::Display for Operation {
    ghost output = { λ operation. Some (called operation) };

    fn fmt<W: fmt::Write>(&self, f: &mut fmt::Formatter<W>) -> fmt::Result {
        f.write_str(match self {
            Operation::Open => "open",
            Operation::Put(..) => "put",
            Operation::Get(..) => "get",
            Operation::Close => "close",
            Operation::Clear => "clear",
        })
    }
}

// Performs an operation on any store.
pub fn perform<S: RegionStore>(store: &mut S, operation: Operation) -> Result<Answer, Refusal>
    ensures answer { result ≡ answered (S.grants store.old) (S.regions store.old) operation }
    ensures after { S.regions store.new ≡ afterwards (S.grants store.old) (S.regions store.old) operation }
    ensures rule { S.grants store.new ≡ S.grants store.old }
{
    match operation {
        Operation::Open => store.open().map(|_| Answer::Done),
        Operation::Put(position, first, second) => store
            .put(position, first, second)
            .map(Answer::Length),
        Operation::Get(position, place) => store.get(position, place).map(Answer::Word),
        Operation::Close => store.close().map(|_| Answer::Done),
        Operation::Clear => {
            store.clear();
            Ok(Answer::Done)
        }
    }
}

// Performs an operation on a pile, by the code for any store.
pub fn perform_on(pile: &mut Pile, operation: Operation) -> Result<Answer, Refusal>
    ensures answer { result ≡ answered (pile_rule pile.old) (pile_regions pile.old) operation }
    ensures after { pile_regions pile.new ≡ afterwards (pile_rule pile.old) (pile_regions pile.old) operation }
    ensures rule { pile_rule pile.new ≡ pile_rule pile.old }
{
    perform(pile, operation)
}
