// One search for variables, regions and functions: the first entry of a name.
ghost use Rattle.std.specs.Prelude.{◌≡◌, ◌<◌, length, Some as some, None as none, MatchOption, OnOk, unwrap_or};
ghost use Rattle.std.specs.List.{position_or_len};
ghost use Rattle.lexing.specs.Tokens.{same_bytes};
ghost use Rattle.language.specs.Scope.{find};
ghost use Rattle.draft.specs.Items.{text_of, ident};
ghost use Rattle.draft.specs.declared.command.Name.{Name as NameOf};
ghost use Rattle.scope.specs.Words.{bytes};
ghost use Rattle.scope.specs.Searches.{First, known_among, new_among};
ghost use Rattle.scope.specs.Verdicts.{told, passed};

use crate::name::bytes_of;
use crate::types::Sort;
use draft::command::Name;
use draft::table::Table;
use lexing::bytes::same;
use lexing::fault::{Fault, Question};

// An entry that bears a name.
pub trait Named {
    ghost key: { Self → NameOf };

    fn name(&self) -> Name
        ensures { result ≡ key self.now };
}

// The index of the first entry of that name, or none.
pub fn first<E: Named>(table: &Table, entries: &[E], sought: &[u8]) -> Option<usize>
    ensures found { MatchOption result (find (λ e. bytes (text_of table.now) (E.key e)) sought.now entries.now ≡ none) (λ i. First (λ e. bytes (text_of table.now) (E.key e)) sought.now entries.now i) }
    ensures before { unwrap_or result (length entries.now) ≡ position_or_len (λ e. same_bytes (bytes (text_of table.now) (E.key e)) sought.now) entries.now }
{
    entries
        .iter()
        .position(|entry| same(bytes_of(table, entry.name()), sought))
}

// The entry that a name stands for.
pub fn found<E: Named + Copy>(table: &Table, entries: &[E], name: Name) -> Result<E, Fault>
    ensures { told (λ e. e) result ≡ known_among (λ e. bytes (text_of table.now) (E.Named.key e)) (ident (text_of table.now) name) entries.now }
{
    let unknown = Fault {
        question: Question::KnownName,
        place: name.place,
    };
    let i = first(table, entries, bytes_of(table, name)).ok_or(unknown)?;
    Ok(entries[i])
}

// An entry may take that name, where at most so many may bear one.
pub fn free<E: Named>(table: &Table, entries: &[E], most: usize, name: Name) -> Result<(), Fault>
    ensures asked { passed result ≡ new_among most (λ e. bytes (text_of table.now) (E.key e)) (ident (text_of table.now) name) entries.now }
    ensures room { OnOk result (length entries.now < most) }
{
    let place = name.place;
    if entries.len() >= most {
        return Err(Fault {
            question: Question::Room,
            place,
        });
    }
    if first(table, entries, bytes_of(table, name)).is_some() {
        return Err(Fault {
            question: Question::NewName,
            place,
        });
    }
    Ok(())
}

// A region in scope is its name.
impl Named for Name {
    ghost key = { λ n. n };

    fn name(&self) -> Name {
        *self
    }
}

// A variable in scope, with its type.
#[derive(Clone, Copy)]
pub struct Variable {
    pub name: Name,
    pub sort: Sort,
}

impl Named for Variable {
    ghost key = { λ v. v.name };

    fn name(&self) -> Name {
        self.name
    }
}

// A function, and the position of its header.
#[derive(Clone, Copy)]
pub struct Function {
    pub name: Name,
    pub header: usize,
}

impl Named for Function {
    ghost key = { λ f. f.name };

    fn name(&self) -> Name {
        self.name
    }
}
