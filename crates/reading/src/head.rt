// The word that a right side begins with.
ghost use Rattle.std.specs.Prelude.{◌≡◌};
ghost use Rattle.reading.specs.Heads.{head_word};

use draft::command::Operator;

#[derive(Clone, Copy)]
pub(crate) enum Head {
    Operation(Operator),
    Nil,
    Cons,
    Call,
    If,
    Region,
    Case,
}

// What a word begins, if it begins a right side.
pub(crate) fn head_word(word: &[u8]) -> Option<Head>
    ensures { result ≡ head_word word.now }
{
    let head = match word {
        b"add" => Head::Operation(Operator::Add),
        b"sub" => Head::Operation(Operator::Sub),
        b"mul" => Head::Operation(Operator::Mul),
        b"div" => Head::Operation(Operator::Div),
        b"rem" => Head::Operation(Operator::Rem),
        b"eq" => Head::Operation(Operator::Eq),
        b"lt" => Head::Operation(Operator::Lt),
        b"nil" => Head::Nil,
        b"cons" => Head::Cons,
        b"call" => Head::Call,
        b"if" => Head::If,
        b"region" => Head::Region,
        b"case" => Head::Case,
        _ => return None,
    };
    Some(head)
}
