// A token: what it is, where it stands in the text, and its bytes, which are a part of that text.
ghost use Rattle.std.specs.Prelude.{◌≡◌, Some};
ghost use Rattle.std.specs.Fmt.{padded};
ghost use Rattle.lexing.specs.KindWords.{kind_word};
ghost use Rattle.lexing.specs.Numbers.{kind_number};

use std::fmt;

// What a token is, with the number that the language gives it.
#[derive(Clone, Copy, PartialEq, Eq, Debug)]
pub enum Kind {
    End = 0,
    Name = 1,
    Keyword = 2,
    Numeral = 3,
    Mark = 4,
}

impl Kind {
    pub fn number(self) -> u8
        ensures { result ≡ kind_number self }
    {
        self as u8
    }
}

impl fmt::Display for Kind {
    ghost output = { λ kind. Some (kind_word kind) };

    ghost styled_output = { λ kind spec. Some (padded spec (kind_word kind)) };

    fn fmt<W: fmt::Write>(&self, f: &mut fmt::Formatter<W>) -> fmt::Result {
        f.pad(match self {
            Kind::End => "end",
            Kind::Name => "name",
            Kind::Keyword => "keyword",
            Kind::Numeral => "numeral",
            Kind::Mark => "mark",
        })
    }
}

#[derive(Clone, Copy, PartialEq, Eq, Debug)]
pub struct Token<'a> {
    pub kind: Kind,
    pub place: usize,
    pub bytes: &'a [u8],
}
