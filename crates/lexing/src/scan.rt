// A whole text, token by token to its end.
ghost use Rattle.std.specs.Prelude.{◌≡◌};
ghost use Rattle.lexing.specs.Answers.{count_told, counted};
ghost use Rattle.lexing.specs.Laws.{Scanned};
ghost use Rattle.lexing.specs.Texts.{tokens_of};

use crate::fault::{Fault, Question};
use crate::tokens::Tokens;

pub const LONGEST_TEXT: usize = 16_384;

pub const MOST_TOKENS: usize = 4_096;

// How many tokens a text has, the end not counted, or the first of the questions 1 to 5 that fails, with its place.
pub fn scan(text: &[u8]) -> Result<usize, Fault>
    ensures is { count_told result ≡ counted (tokens_of text.now) }
    ensures law { Scanned text.now (count_told result) }
{
    if text.len() > LONGEST_TEXT {
        return Err(Fault {
            question: Question::TextLength,
            place: 0,
        });
    }
    // The count is the answer, which `enumerate` would not leave behind at the end.
    let mut count = 0;
    for token in Tokens::new(text) {
        let token = token?;
        if count == MOST_TOKENS {
            return Err(Fault {
                question: Question::TokenCount,
                place: token.place,
            });
        }
        count += 1;
    }
    Ok(count)
}
