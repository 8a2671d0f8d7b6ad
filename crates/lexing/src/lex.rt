// One token from the front of a text.
ghost use Rattle.std.specs.Prelude.{◌≡◌};
ghost use Rattle.lexing.specs.Answers.{told, shifted};
ghost use Rattle.lexing.specs.Laws.{First};
ghost use Rattle.lexing.specs.Tokens.{token_at};

use crate::class::Class;
use crate::fault::Fault;
use crate::shape::{token_kind, token_width};
use crate::span::front;
use crate::token::Token;

// The token at the front of a text that stands `offset` bytes into the whole, and the rest of the text behind it.
pub fn token_at(text: &[u8], offset: usize) -> Result<(Token<'_>, &[u8]), Fault>
    ensures { told result ≡ shifted offset (token_at 0 text.now) }
{
    let (blanks, body) = text.split_at(front(text, |byte| Class::Blank.has(byte)));
    let place = offset.saturating_add(blanks.len());
    let size = token_width(body);
    let kind = token_kind(body, size).map_err(|question| Fault { question, place })?;
    let (bytes, rest) = body.split_at(size);
    Ok((Token { kind, place, bytes }, rest))
}

// The token at the front of a text, and the rest of the text behind it.
pub fn token(text: &[u8]) -> Result<(Token<'_>, &[u8]), Fault>
    ensures is { told result ≡ token_at 0 text.now }
    ensures law { First 0 text.now (told result) }
{
    token_at(text, 0)
}
