// A position in a table, and what stands there.
ghost use Rattle.std.specs.Prelude.{◌≡◌, [], ◌∷◌, MatchOption};
ghost use Rattle.draft.specs.Items.{text_of, item};
ghost use Rattle.scope.specs.Words.{bytes, row, word, declared, handed};
ghost use Rattle.scope.specs.Spots.{ahead, Behind};

use crate::command::command_at;
use draft::command::{Command, Name};
use draft::table::Table;

#[derive(Clone, Copy)]
pub struct Spot<'a> {
    pub table: &'a Table,
    pub position: usize,
}

impl<'a> Spot<'a> {
    pub fn at(table: &'a Table, position: usize) -> Spot<'a>
        ensures table { result.table.now ≡ table.now }
        ensures position { result.position ≡ position }
    {
        Spot { table, position }
    }

    // The command at the spot, and the spot behind it; none behind the last command.
    pub fn split(self) -> Option<(Command, Spot<'a>)>
        ensures { MatchOption result (ahead self.entry ≡ []) (λ p. Behind self.entry p.1 × (ahead self.entry ≡ item (text_of self.entry.table.now) p.0 ∷ ahead p.1)) }
    {
        let command = command_at(self.table, self.position)?;
        let behind = Spot {
            table: self.table,
            position: self.position + 1,
        };
        Some((command, behind))
    }

    // Each of these three asks for another command: the pattern is all that one function for them would take as a closure,
    // with a law on the items beside it.

    // The region of the word of a type that stands here, and the spot behind it.
    pub fn word(self) -> Option<(Name, Spot<'a>)>
        ensures { MatchOption result (row word (ahead self.entry) ≡ []) (λ p. Behind self.entry p.1 × (row word (ahead self.entry) ≡ bytes (text_of self.entry.table.now) p.0 ∷ row word (ahead p.1))) }
    {
        match self.split() {
            Some((Command::List(name) | Command::Nil(_, name), behind)) => Some((name, behind)),
            _ => None,
        }
    }

    // The region that a header declares here, and the spot behind it.
    pub fn declared(self) -> Option<(Name, Spot<'a>)>
        ensures { MatchOption result (row declared (ahead self.entry) ≡ []) (λ p. Behind self.entry p.1 × (row declared (ahead self.entry) ≡ bytes (text_of self.entry.table.now) p.0 ∷ row declared (ahead p.1))) }
    {
        match self.split() {
            Some((Command::HeaderRegion(name), behind)) => Some((name, behind)),
            _ => None,
        }
    }

    // The region that a call hands over here, and the spot behind it.
    pub fn handed(self) -> Option<(Name, Spot<'a>)>
        ensures { MatchOption result (row handed (ahead self.entry) ≡ []) (λ p. Behind self.entry p.1 × (row handed (ahead self.entry) ≡ bytes (text_of self.entry.table.now) p.0 ∷ row handed (ahead p.1))) }
    {
        match self.split() {
            Some((Command::Handed(name), behind)) => Some((name, behind)),
            _ => None,
        }
    }
}
