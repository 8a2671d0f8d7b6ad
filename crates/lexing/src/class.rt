// The class of a byte, read from a table of all 256 byte values.
ghost use Rattle.std.specs.Prelude.{◌≡◌, ◌==◌};
ghost use Rattle.lexing.specs.Classes.{class_of, word_byte, letter_like};
ghost use Rattle.lexing.specs.ClassNumbers.{class_number};

// What a byte is to the language, with its number there.
#[derive(Clone, Copy, PartialEq, Eq, Debug)]
pub(crate) enum Class {
    Other = 0,
    Blank = 1,
    Letter = 2,
    Digit = 3,
    Underscore = 4,
    Mark = 5,
    Minus = 6,
}

const O: Class = Class::Other;

const B: Class = Class::Blank;

const L: Class = Class::Letter;

const D: Class = Class::Digit;

const U: Class = Class::Underscore;

const K: Class = Class::Mark;

const M: Class = Class::Minus;

// A static and no const: a const of an enum's values is laid down anew, all 256 of them, wherever a byte is looked up.
static CLASSES: [Class; 256] = [
    O, O, O, O, O, O, O, O, O, B, B, O, O, B, O, O, O, O, O, O, O, O, O, O, O, O, O, O, O, O, O, O,
    B, O, O, O, O, O, O, O, K, K, O, O, K, M, O, O, D, D, D, D, D, D, D, D, D, D, K, K, O, K, O, O,
    K, O, O, O, O, O, O, O, O, O, O, O, O, O, O, O, O, O, O, O, O, O, O, O, O, O, O, K, O, K, O, U,
    O, L, L, L, L, L, L, L, L, L, L, L, L, L, L, L, L, L, L, L, L, L, L, L, L, L, L, K, O, K, O, O,
    O, O, O, O, O, O, O, O, O, O, O, O, O, O, O, O, O, O, O, O, O, O, O, O, O, O, O, O, O, O, O, O,
    O, O, O, O, O, O, O, O, O, O, O, O, O, O, O, O, O, O, O, O, O, O, O, O, O, O, O, O, O, O, O, O,
    O, O, O, O, O, O, O, O, O, O, O, O, O, O, O, O, O, O, O, O, O, O, O, O, O, O, O, O, O, O, O, O,
    O, O, O, O, O, O, O, O, O, O, O, O, O, O, O, O, O, O, O, O, O, O, O, O, O, O, O, O, O, O, O, O,
];

impl Class {
    fn of(byte: u8) -> Class
        ensures { class_number result ≡ class_of byte }
    {
        CLASSES[byte as usize]
    }

    // Whether a byte is of this class.
    pub(crate) fn has(self, byte: u8) -> bool
        ensures { result ≡ (class_of byte == class_number self) }
    {
        Class::of(byte) == self
    }
}

// A letter or an underscore: what may not stand directly behind a numeral.
pub(crate) fn is_letter_like(byte: u8) -> bool
    ensures { result ≡ letter_like byte }
{
    matches!(Class::of(byte), Class::Letter | Class::Underscore)
}

// A letter, a digit or an underscore: what a name goes on with.
pub(crate) fn is_word_byte(byte: u8) -> bool
    ensures { result ≡ word_byte byte }
{
    matches!(
        Class::of(byte),
        Class::Letter | Class::Digit | Class::Underscore
    )
}
