// Why a text is refused: the first question that is answered no, and its place in the text.
ghost use Rattle.std.specs.Prelude.{◌≡◌};
ghost use Rattle.lexing.specs.Numbers.{question_number};

// A question, with the number that the language gives it.
#[derive(Clone, Copy, PartialEq, Eq, Debug)]
pub enum Question {
    TextLength = 1,
    FirstByte = 2,
    NumeralFits = 3,
    NameLength = 4,
    TokenCount = 5,
    Grammar = 6,
    Nesting = 7,
    NewFunction = 8,
    MainFunction = 9,
    Room = 10,
    KnownName = 11,
    NewName = 12,
    NeededType = 13,
    ClosedRegion = 14,
    TypeDepth = 15,
    CallShape = 16,
}

impl Question {
    pub fn number(self) -> u8
        ensures { result ≡ question_number self }
    {
        self as u8
    }
}

#[derive(Clone, Copy, PartialEq, Eq, Debug)]
pub struct Fault {
    pub question: Question,
    pub place: usize,
}
