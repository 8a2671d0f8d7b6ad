// A cursor in a text: the token that comes next, what stands behind it, and the table that says what was read.
ghost use Rattle.std.specs.Prelude.{◌≡◌, ◌+◌, ◌<◌, ◌≤◌, length};
ghost use Rattle.draft.specs.Items.{text_of};
ghost use Rattle.reading.specs.Standing.{Left, Sound, tokens_left, tokens_at};

use crate::head::{Head, head_word};
use draft::command::{Command, Name};
use draft::table::Table;
use lexing::bytes::same;
use lexing::fault::{Fault, Question};
use lexing::lex::token_at;
use lexing::numeral::number;
use lexing::token::Kind;

// The token's fields, and no `Token`: a struct that nests another one of the same lifetime is not covered by the checker.
#[derive(Drop)]
pub(crate) struct Cursor<'a, 't> {
    text: &'a [u8],
    kind: Kind,
    pub(crate) place: usize,
    bytes: &'a [u8],
    rest: &'a [u8],
    table: &'t mut Table,
    // The token stands where the text has it, and all behind it passes.
    ghost sound: { Sound text.now (record { kind = kind; place = place; bytes = bytes.now }) rest.now },
    // The table has a copy of the text, and room for a command to each token that is left.
    ghost copied: { text_of table.now ≡ text.now },
    ghost room: { length table.now.commands.items + length (tokens_at (record { kind = kind; place = place; bytes = bytes.now }) rest.now) ≤ 4096 },
}

impl<'a, 't> Cursor<'a, 't> {
    ghost use Rattle.std.specs.Prelude.{true, false, ◌∷◌, None, Ok, Err, MatchOption, MatchResult};
    ghost use Rattle.lexing.specs.Texts.{at_end};
    ghost use Rattle.language.specs.Reading.{starts, mark_of, key_of, name_of, atom_in, atom_of};
    ghost use Rattle.draft.specs.Items.{ident};
    ghost use Rattle.reading.specs.Heads.{head_of};
    ghost use Rattle.reading.specs.Cursors.{Skips, Next, Passes, AtomSaid, AtomRead, Pushed, ahead, token_of, end_of, refused, word_of, opened_of};

    // The cursor at the first token of a text, whose copy the table has.
    pub(crate) fn new(text: &'a [u8], table: &'t mut Table) -> Result<Cursor<'a, 't>, Fault>
        requires left { Left text.now text.now 0 }
        requires copied { text_of table.old ≡ text.now }
        requires room { length table.old.commands.items + length (tokens_left 0 text.now) ≤ 4096 }
        ensures { MatchResult result (λ c. (c.text.now ≡ text.now) × (ahead c ≡ tokens_left 0 text.now) × (c.table.ghost_name ≡ table.entry.ghost_name) × (c.table.now ≡ table.old)) (λ _. ⊥) }
    {
        let (token, rest) = token_at(text, 0)?;
        Ok(Cursor {
            text,
            kind: token.kind,
            place: token.place,
            bytes: token.bytes,
            rest,
            table,
        })
    }

    // One token on, or at the end to stay there.
    pub(crate) fn advance(&mut self) -> Result<(), Fault>
        ensures { MatchResult result (λ _. Skips self.old self.new) (λ _. ⊥) }
    {
        let (token, rest) = token_at(self.rest, self.place + self.bytes.len())?;
        self.kind = token.kind;
        self.place = token.place;
        self.bytes = token.bytes;
        self.rest = rest;
        Ok(())
    }

    // One command more in the table.
    pub(crate) fn push(&mut self, command: Command)
        requires { length self.old.table.now.commands.items + length (ahead self.old) < 4096 }
        ensures { Pushed command self.old self.new }
    {
        self.table.push(command);
    }

    // The refusal of the next token, by the question that fails there.
    pub(crate) fn refused(&self, question: Question) -> Fault
        ensures { result ≡ record { question = question; place = self.now.place } }
    {
        Fault {
            question,
            place: self.place,
        }
    }

    // Whether no token is left.
    pub(crate) fn at_end(&self) -> bool
        ensures { result ≡ at_end self.now.kind }
    {
        matches!(self.kind, Kind::End)
    }

    // Whether the next token is that keyword or mark.
    pub(crate) fn stands(&self, kind: Kind, word: &[u8]) -> bool
        ensures { result ≡ starts kind word.now (ahead self.now) }
    {
        if self.at_end() {
            return false;
        }
        self.kind == kind && same(self.bytes, word)
    }

    // The keyword or the mark that has to stand there.
    fn expect(&mut self, kind: Kind, word: &[u8]) -> Result<(), Fault>
        ensures { Passes (word_of (end_of self.old) kind word.now) self.old.place self.old self.new result }
    {
        if !self.stands(kind, word) {
            return Err(self.refused(Question::Grammar));
        }
        self.advance()
    }

    // These two name the kind that `expect` is given, so that a call says which it wants.

    pub(crate) fn mark(&mut self, word: &[u8]) -> Result<(), Fault>
        ensures { Passes (mark_of (end_of self.old) word.now) self.old.place self.old self.new result }
    {
        self.expect(Kind::Mark, word)
    }

    pub(crate) fn keyword(&mut self, word: &[u8]) -> Result<(), Fault>
        ensures { Passes (key_of (end_of self.old) word.now) self.old.place self.old self.new result }
    {
        self.expect(Kind::Keyword, word)
    }

    // The token as a name.
    fn as_name(&self) -> Name
        ensures { ident self.now.text.now result ≡ record { place = self.now.place; name = self.now.bytes.now } }
    {
        Name {
            place: self.place,
            length: self.bytes.len(),
        }
    }

    // The name that has to stand there.
    pub(crate) fn name(&mut self) -> Result<Name, Fault>
        ensures { MatchResult result (λ x. Next self.old self.new × (name_of (end_of self.old) (ahead self.old) ≡ Ok (ident self.old.text.now x, ahead self.new))) (λ e. name_of (end_of self.old) (ahead self.old) ≡ Err (refused e)) }
    {
        let Kind::Name = self.kind else {
            return Err(self.refused(Question::Grammar));
        };
        let name = self.as_name();
        self.advance()?;
        Ok(name)
    }

    // The token as an atom, if it is one.
    fn as_atom(&self) -> Option<Command>
        ensures { MatchOption result (atom_in (token_of self.now) ≡ None) (λ command. AtomSaid self.now command) }
    {
        match self.kind {
            Kind::Name => Some(Command::Variable(self.as_name())),
            Kind::Numeral => {
                let place = self.place;
                number(self.bytes).map(|value| Command::Number(place, value))
            }
            _ => None,
        }
    }

    // The atom that has to stand there, as a command.
    pub(crate) fn atom(&mut self) -> Result<Command, Fault>
        ensures { MatchResult result (λ command. Next self.old self.new × AtomRead self.old command self.new) (λ e. atom_of (end_of self.old) (ahead self.old) ≡ Err (refused e)) }
    {
        let Some(command) = self.as_atom() else {
            return Err(self.refused(Question::Grammar));
        };
        self.advance()?;
        Ok(command)
    }

    // The region that has to stand behind `@`, and the parenthesis that opens behind it.
    pub(crate) fn opened(&mut self) -> Result<Name, Fault>
        ensures { MatchResult result (λ x. Next self.old self.new × (opened_of (end_of self.old) (ahead self.old) ≡ Ok (ident self.old.text.now x, ahead self.new))) (λ e. opened_of (end_of self.old) (ahead self.old) ≡ Err (refused e)) }
    {
        self.mark(b"@")?;
        let region = self.name()?;
        self.mark(b"(")?;
        Ok(region)
    }

    // The form of a right side that stands there, if it is one that a keyword begins.
    pub(crate) fn head(&self) -> Option<Head>
        ensures { result ≡ head_of (token_of self.now) }
    {
        match self.kind {
            Kind::Keyword => head_word(self.bytes),
            _ => None,
        }
    }
}
